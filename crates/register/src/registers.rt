// The names of the eight registers.
ghost use Rattle.std.specs.Prelude.{◌≡◌, ◌<◌, Some};

use std::error::Error;
use std::fmt;

/// One of the eight registers, by its number.
#[derive(Clone, Copy, PartialEq, Eq, Debug)]
pub struct Register {
    // No Model: as a bare number a register would lose the next fact, and the laws hold of registers below 8 alone.
    index: u8,
    ghost below: { index < 8 },
}

/// A number that names no register.
#[derive(Clone, Copy, PartialEq, Eq, Debug)]
pub struct UnknownRegister(pub u8);

// By hand, since no derive promises the text.
impl fmt::Display for UnknownRegister {
    ghost use Rattle.register.specs.Registers.{unknown_text};

    ghost output = { λ e. Some (unknown_text e) };

    fn fmt<W: fmt::Write>(&self, f: &mut fmt::Formatter<W>) -> fmt::Result {
        write!(f, "no register has the number {}", self.0)
    }
}

impl Error for UnknownRegister {}

impl TryFrom<u8> for Register {
    ghost use Rattle.register.specs.Registers.{NamesRegister};

    type Error = UnknownRegister;

    ghost try_from_gives = { NamesRegister };

    /// The register with the number `index`, 0 to 7.
    fn try_from(index: u8) -> Result<Register, UnknownRegister> {
        if index < 8 {
            Ok(Register { index })
        } else {
            Err(UnknownRegister(index))
        }
    }
}

impl Register {
    /// Its number, below 8.
    pub fn index(&self) -> usize
        ensures value { result ≡ self.now.index }
        ensures below { result < 8 }
    {
        usize::from(self.index)
    }
}
