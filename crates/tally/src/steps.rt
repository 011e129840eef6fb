// The machine that counts down: a step takes one away, and it halts at zero.
ghost use Rattle.tally.specs.Laws.{countdown_model};

use crate::countdown::Countdown;
use crate::moved::Moved;
use machine::Machine;

/// The machine that counts down to zero and halts there.
#[derive(Clone, Copy)]
pub struct Tally;

impl Machine for Tally {
    type Tableau = Countdown;

    type Record = Moved;

    // The model is the same for every value of the machine. One that holds a program would cite it here.
    ghost model = { λ _. countdown_model };

    fn step(&self, work: &mut Countdown) -> Moved {
        let one = work.left > 0;
        work.left = work.left.saturating_sub(1);
        Moved { one }
    }

    fn unstep(&self, work: &mut Countdown, noted: Moved) {
        if noted.one {
            work.left = work.left.wrapping_add(1);
        }
    }

    fn is_halted(&self, t: &Countdown) -> bool {
        t.left == 0
    }
}
