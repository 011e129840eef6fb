//! The rewriting machine: a text of at most 48 bytes, a mark and a lent table of ordered rules.

#![tactic(auto)]

pub mod bytes;
pub mod changing;
pub mod marking;
pub mod matching;
pub mod record;
pub mod replacing;
pub mod rule;
pub mod searching;
pub mod shape;
pub mod side;
pub mod spelling;
pub mod steps;
pub mod sums;
pub mod tableau;
pub mod too_long;

pub use matching::Match;
pub use record::RewritingRecord;
pub use rule::{Rule, Side};
pub use steps::{is_halted, step, unstep};
pub use tableau::RewritingTableau;
pub use too_long::TooLong;
