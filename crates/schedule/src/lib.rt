//! The checkpoint schedule of a reversible run: its sizes, its moves, and where each checkpoint lies.
#![tactic(auto)]

mod list;
mod lookup;
mod moves;
mod sizes;

pub use moves::{Change, Move};
pub use sizes::{MOST_ALLOWANCE, Plan, Sizes};
