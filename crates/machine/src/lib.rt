//! What a reversible machine is: tableaux that can be summed, records, steps and the way back.

#![tactic(auto)]

pub mod commuting;
pub mod exact;
pub mod record;
pub mod step;
pub mod tableau;

pub use commuting::Commuting;
pub use exact::Exact;
pub use record::Record;
pub use step::{Machine, there_and_back};
pub use tableau::Tableau;
