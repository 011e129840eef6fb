//! How a job is laid out in bytes, and by which rule bytes are judged.

#![tactic(auto)]

pub mod bodies;
pub mod kinds;
pub mod lawful;
pub mod numbering;
pub mod operands;
pub mod sides;
pub mod spelt;

pub use bodies::body_at;
pub use kinds::{Kind, Lengths, Operand, UnknownKind};
pub use lawful::laws;
pub use operands::instruction_wrong;
pub use sides::{first_zero, rule_wrong};
pub use spelt::sizes_in;
