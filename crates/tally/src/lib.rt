//! A countdown, as an example of a machine brought along: it uses nothing but the interface of `machine`.
//!
//! To bring a machine of your own, copy this crate and change it in this order:
//!
//! 1. `countdown.rt` and `moved.rt`: what the machine works on and what a step notes, each a `Copy` struct. A number
//!    gets a ghost field that states its range, and such a struct stands in a file of its own.
//! 2. `specs/Countdown.antt`: sum, step and way back as short definitions on these structs.
//! 3. `specs/Laws.antt`: the laws that `Sum` and `Model` ask for, proved, and the two put together.
//! 4. `sums.rt` and `steps.rt`: the code. The traits' contracts tie it to 2.

#![tactic(auto)]

pub mod countdown;
pub mod moved;
pub mod steps;
pub mod sums;

pub use countdown::Countdown;
pub use moved::Moved;
pub use steps::Tally;
