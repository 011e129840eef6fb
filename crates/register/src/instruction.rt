// The instructions of the register machine.
use crate::registers::Register;

/// One instruction of a program.
#[derive(Clone, Copy, PartialEq, Eq, Debug)]
pub enum Instruction {
    /// Stands still.
    Halt,
    /// Adds 1 to the register, modulo 2^32.
    Increment(Register),
    /// Takes 1 from the register, and leaves 0 at 0.
    Decrement(Register),
    /// Goes to the place if the register is 0.
    JumpIfZero(Register, u16),
    /// Goes to the place.
    Jump(u16),
    /// Sets `into` to what `from` holds.
    Copy { into: Register, from: Register },
    /// Adds what `from` holds to `into`, modulo 2^32. Both may be the same register.
    Add { into: Register, from: Register },
}
