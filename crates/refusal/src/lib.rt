//! The closed list of refusals of the bench: every reason to refuse, with its number, its layer and its place.
#![tactic(auto)]

mod kinds;
mod table;
mod text;

pub use kinds::{Fault, Refusal};
pub use text::line;
