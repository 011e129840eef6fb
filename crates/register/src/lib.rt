//! The register machine: eight registers, a program counter and a lent table of instructions.

#![tactic(auto)]

pub mod access;
pub mod instruction;
pub mod record;
pub mod registers;
pub mod steps;
pub mod sums;
pub mod tableau;

pub use instruction::Instruction;
pub use record::RegisterRecord;
pub use registers::{Register, UnknownRegister};
pub use steps::{is_halted, step, unstep};
pub use tableau::RegisterTableau;
