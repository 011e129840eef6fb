//! The list of moves, written by the recursion that defines it.
ghost use Rattle.std.specs.Prelude.{◌≡◌, ℕ, ◌+◌, ◌^◌, ◌<◌, ◌≤◌, nat_lt, ◌++◌, length, drop, if◌then◌else◌, Ok, Err};
ghost use Rattle.refusal.specs.declared.kinds.Fault.TheVariants.{Room};
ghost use Rattle.schedule.specs.declared.moves.Change.TheVariants.{Place, Remove};
ghost use Rattle.schedule.specs.Sizes.{base};
ghost use Rattle.schedule.specs.Moves.{moves};
ghost use Rattle.schedule.specs.Answers.{segments_of, moves_of, build_of};
ghost use Rattle.schedule.specs.Written.{written};

use crate::moves::{Change, Move};
use crate::sizes::Plan;
use refusal::{Fault, Refusal};

#[tactic(auto, using(crate::proofs::Writing::written_front))]
impl Plan {
    /// Writes the moves of the build, in their order, to the front of `out`, and leaves what stands behind them. A
    /// slice with fewer places than there are moves is refused as `Room`, and stays as it was.
    pub fn list(&self, out: &mut [Move]) -> Result<(), Refusal>
        ensures answer { result ≡ (if nat_lt (length out.old) (moves_of self.now) then Err (record { fault = Room; place = 0 }) else Ok tt) }
        ensures items { out.new ≡ (if nat_lt (length out.old) (moves_of self.now) then out.old else build_of self.now ++ drop (moves_of self.now) out.old) }
    {
        if (out.len() as u64) < self.moves() {
            return Err(Refusal::new(Fault::Room, 0));
        }
        self.build(self.depth(), 0, out, 0);
        Ok(())
    }
}

// `build` and `unbuild` call each other one level down and write into the caller's list: a form set by the project.
#[tactic(auto, using(crate::proofs::Writing::blocks))]
impl Plan {
    // Writes the moves that place checkpoint `first + k ^ level` from place `at` on, and answers the place behind them.
    #[cycle(build_unbuild)]
    fn build(&self, level: u32, first: u32, out: &mut [Move], at: usize) -> usize
        requires range { first + self.now.sizes.fan_out ^ level ≤ segments_of self.now }
        requires room { at + base self.now.sizes.fan_out ^ level ≤ length out.old }
        ensures value { result ≡ at + base self.now.sizes.fan_out ^ level }
        ensures items { out.new ≡ written out.old at (moves self.now.sizes.fan_out Place level first) }
    {
        if level == 0 {
            out[at] = Move {
                change: Change::Place,
                segment: first,
            };
            return at + 1;
        }
        let k = self.fan_out();
        let width = k.pow(level - 1);
        let mut next = at;
        'up: for i in 0..k {
            next = self.build(level - 1, first + i * width, out, next);
        }
        'down: for i in (0..k - 1).rev() {
            next = self.unbuild(level - 1, first + i * width, out, next);
        }
        next
    }

    // Writes the moves that remove checkpoint `first + k ^ level` from place `at` on, and answers the place behind them.
    #[cycle(build_unbuild)]
    fn unbuild(&self, level: u32, first: u32, out: &mut [Move], at: usize) -> usize
        requires range { first + self.now.sizes.fan_out ^ level ≤ segments_of self.now }
        requires room { at + base self.now.sizes.fan_out ^ level ≤ length out.old }
        ensures value { result ≡ at + base self.now.sizes.fan_out ^ level }
        ensures items { out.new ≡ written out.old at (moves self.now.sizes.fan_out Remove level first) }
    {
        if level == 0 {
            out[at] = Move {
                change: Change::Remove,
                segment: first,
            };
            return at + 1;
        }
        let k = self.fan_out();
        let width = k.pow(level - 1);
        let mut next = at;
        'up: for i in 0..k - 1 {
            next = self.build(level - 1, first + i * width, out, next);
        }
        'down: for i in (0..k).rev() {
            next = self.unbuild(level - 1, first + i * width, out, next);
        }
        next
    }
}
