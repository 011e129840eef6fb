// Sums of countdowns, modulo 2^32, and the blank record.
ghost use Rattle.tally.specs.Countdown.{unmoved};
ghost use Rattle.tally.specs.Laws.{countdown_sum, plus_commutes};

use crate::countdown::Countdown;
use crate::moved::Moved;
use machine::{Commuting, Record, Tableau};

impl Tableau for Countdown {
    ghost sum = { countdown_sum };

    fn zero() -> Countdown {
        Countdown { left: 0 }
    }

    // One line each: an operation handed to a function of both would be longer.
    fn plus(&mut self, other: &Countdown) {
        self.left = self.left.wrapping_add(other.left);
    }

    fn minus(&mut self, other: &Countdown) {
        self.left = self.left.wrapping_sub(other.left);
    }
}

impl Commuting for Countdown {
    ghost commutes = { plus_commutes };
}

impl Record for Moved {
    ghost blank = { unmoved };

    fn blank() -> Moved {
        Moved { one: false }
    }
}
