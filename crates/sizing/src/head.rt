//! The sizes of a run and what follows from them, as the head of a report.
ghost use Rattle.std.specs.Prelude.{◌≡◌, Some};
ghost use Rattle.sizing.specs.Texts.{head_of, head_text};

use schedule::Plan;
use std::fmt;

/// The numbers of the head lines.
#[derive(Clone, Copy)]
pub struct Head {
    fan_out: u32,
    depth: u32,
    steps: u32,
    segments: u32,
    moves: u64,
    last_tick: u64,
    shelf: u32,
    whole_steps: u64,
    overhead: u64,
}

/// The head of the report on a plan.
impl From<&Plan> for Head {
    ghost from_gives = { λ p h. h ≡ head_of p.now };

    fn from(plan: &Plan) -> Head {
        Head {
            fan_out: plan.fan_out(),
            depth: plan.depth(),
            steps: plan.steps(),
            segments: plan.segments(),
            moves: plan.moves(),
            last_tick: plan.last_tick(),
            shelf: plan.slots(),
            whole_steps: plan.whole_run_steps(),
            overhead: plan.whole_run_overhead(),
        }
    }
}

impl fmt::Display for Head {
    ghost output = { λ h. Some (head_text h) };

    #[tactic(auto, unfolding(crate::specs::Texts::head_text))]
    fn fmt<W: fmt::Write>(&self, f: &mut fmt::Formatter<W>) -> fmt::Result {
        write!(
            f,
            "fan-out {} depth {} steps {}\nsegments {} moves {} last tick {}\nshelf {} trail {}\nsteps {} overhead {}",
            self.fan_out,
            self.depth,
            self.steps,
            self.segments,
            self.moves,
            self.last_tick,
            self.shelf,
            self.steps,
            self.whole_steps,
            self.overhead
        )
    }
}
