//! What a run of a plan needs and costs.
ghost use Rattle.std.specs.Prelude.{◌≡◌};
ghost use Rattle.schedule.specs.Sizes.{overhead};
ghost use Rattle.schedule.specs.Answers.{slots_of, whole_steps_of, plain_steps_of};

use crate::sizes::Plan;

impl Plan {
    /// The slots that the shelf of the run needs, n(k - 1) + 1. A plan's schedule is sound, so no move leaves more
    /// checkpoints live, and one leaves just as many.
    pub fn slots(&self) -> u32
        ensures value { result ≡ slots_of self.now }
    {
        self.sizes.depth * (self.sizes.fan_out - 1) + 1
    }

    /// The machine's steps and unsteps in a whole run forward, 4mP.
    pub fn whole_run_steps(&self) -> u64
        ensures value { result ≡ whole_steps_of self.now }
    {
        4 * u64::from(self.sizes.steps) * self.moves
    }

    /// What a whole run forward costs, in hundredths of the m·k^n steps of the program itself, cut.
    pub fn whole_run_overhead(&self) -> u64
        ensures value { result ≡ overhead (whole_steps_of self.now) (plain_steps_of self.now) }
    {
        100 * self.whole_run_steps() / (u64::from(self.sizes.steps) * u64::from(self.segments))
    }
}
