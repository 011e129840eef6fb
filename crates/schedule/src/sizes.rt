//! The sizes of a run, judged once and carried with the facts that follow from them.
ghost use Rattle.std.specs.Prelude.{◌≡◌, ◌^◌, ◌≤◌, true};
ghost use Rattle.schedule.specs.Sizes.{segments, moves_count, last_tick_at, depth_legal};

mod counts;
mod planning;
mod told;

pub use planning::MOST_ALLOWANCE;

/// The sizes of a run, as they were asked for; `Plan::new` judges them.
#[derive(Clone, Copy, PartialEq, Eq, Debug)]
pub struct Sizes {
    /// The fan-out k: how many blocks of the level below place the last checkpoint of a level.
    pub fan_out: u32,
    /// The depth n: how many levels there are.
    pub depth: u32,
    /// m: how many steps of the machine make a segment.
    pub steps: u32,
    /// How many ticks, forward and back together, the run may take.
    pub allowance: u64,
}

/// The sizes of one run. `Plan::new` alone makes one; opening a run spends it.
// No Model: other proofs stand on the facts below, which a value without the fields would not have.
#[derive(Drop)]
pub struct Plan {
    sizes: Sizes,
    segments: u32,
    moves: u64,
    last_tick: u64,
    ghost fan_out_range: { (2 ≤ sizes.fan_out) × (sizes.fan_out ≤ 8) },
    ghost depth_range: { depth_legal sizes.fan_out sizes.depth ≡ true },
    ghost steps_range: { (1 ≤ sizes.steps) × (sizes.steps ≤ 1024) },
    ghost allowance_range: { (1 ≤ sizes.allowance) × (sizes.allowance ≤ 1_000_000_000_000_000) },
    ghost segments_is: { segments ≡ sizes.fan_out ^ sizes.depth },
    ghost moves_is: { moves ≡ moves_count sizes.fan_out sizes.depth },
    ghost last_tick_is: { last_tick ≡ last_tick_at sizes.fan_out sizes.depth sizes.steps },
    ghost segments_few: { segments ≤ 2 ^ 24 },
    ghost moves_few: { moves ≤ 3_000_000_000 },
}
