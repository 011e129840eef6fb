//! What a plan tells of its sizes.
ghost use Rattle.std.specs.Prelude.{◌≡◌};
ghost use Rattle.schedule.specs.Answers.{segments_of, moves_of, last_tick_of};

use crate::sizes::Plan;

impl Plan {
    /// The fan-out k.
    pub fn fan_out(&self) -> u32
        ensures value { result ≡ self.now.sizes.fan_out }
    {
        self.sizes.fan_out
    }

    /// The depth n.
    pub fn depth(&self) -> u32
        ensures value { result ≡ self.now.sizes.depth }
    {
        self.sizes.depth
    }

    /// The steps m of a segment, which is also how many places the trail of a run needs.
    pub fn steps(&self) -> u32
        ensures value { result ≡ self.now.sizes.steps }
    {
        self.sizes.steps
    }

    /// How many ticks, forward and back together, the run may take.
    pub fn allowance(&self) -> u64
        ensures value { result ≡ self.now.sizes.allowance }
    {
        self.sizes.allowance
    }

    /// The segments of the run, k^n.
    pub fn segments(&self) -> u32
        ensures value { result ≡ segments_of self.now }
    {
        self.segments
    }

    /// The moves P = (2k - 1)^n that place the last checkpoint.
    pub fn moves(&self) -> u64
        ensures value { result ≡ moves_of self.now }
    {
        self.moves
    }

    /// The last tick of the run, 2P(2m + 3) + 1.
    pub fn last_tick(&self) -> u64
        ensures value { result ≡ last_tick_of self.now }
    {
        self.last_tick
    }
}
