//! Making a plan.
ghost use Rattle.std.specs.Prelude.{◌≡◌};
ghost use Rattle.schedule.specs.Answers.{wrong_of, Planned};

use crate::sizes::{Plan, Sizes};
use refusal::{Fault, Refusal};

// Where each size stands among the bytes of the sizes.
const FAN_OUT_AT: usize = 0;

const DEPTH_AT: usize = 1;

const STEPS_AT: usize = 2;

const ALLOWANCE_AT: usize = 4;

// The limits of the sizes. That of the depth may come to hang on the fan-out.
const LEAST_FAN_OUT: u32 = 2;

const MOST_FAN_OUT: u32 = 8;

const MOST_DEPTH: u32 = 8;

const MOST_STEPS: u32 = 1024;

/// The most ticks that a plan may allow.
pub const MOST_ALLOWANCE: u64 = 1_000_000_000_000_000;

impl Plan {
    /// The plan of a run of `sizes`: the fan-out (2 to 8), the depth (0 to 8), the steps to a segment (1 to 1,024) and
    /// the allowance in ticks (1 to 10^15), judged in this order. The first one out of its limits is refused as `Sizes`,
    /// at place 0, 1, 2 or 4.
    #[tactic(auto, using(crate::proofs::Bounds::bounds))]
    pub fn new(sizes: Sizes) -> Result<Plan, Refusal>
        ensures planned { Planned sizes result }
    {
        if let Some(place) = wrong(sizes) {
            return Err(Refusal::new(Fault::Sizes, place));
        }
        let segments = sizes.fan_out.pow(sizes.depth);
        let moves = u64::from(2 * sizes.fan_out - 1).pow(sizes.depth);
        let last_tick = 2 * moves * u64::from(2 * sizes.steps + 3) + 1;
        Ok(Plan {
            sizes,
            segments,
            moves,
            last_tick,
        })
    }
}

// Where the first size that is out of its limits stands, if any.
fn wrong(sizes: Sizes) -> Option<usize>
    ensures value { result ≡ wrong_of sizes }
{
    if !(LEAST_FAN_OUT..=MOST_FAN_OUT).contains(&sizes.fan_out) {
        return Some(FAN_OUT_AT);
    }
    if sizes.depth > MOST_DEPTH {
        return Some(DEPTH_AT);
    }
    if !(1..=MOST_STEPS).contains(&sizes.steps) {
        return Some(STEPS_AT);
    }
    if !(1..=MOST_ALLOWANCE).contains(&sizes.allowance) {
        return Some(ALLOWANCE_AT);
    }
    None
}
