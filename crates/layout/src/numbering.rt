// The number by which a job names its kind.
ghost use Rattle.std.specs.Prelude.{◌≡◌, Some};
ghost use Rattle.layout.specs.Jobs.{kind_number, NamesKind, unknown_text};

use crate::kinds::{Kind, UnknownKind};
use std::error::Error;
use std::fmt;

impl Kind {
    /// Its number in a job.
    pub fn number(self) -> u8
        ensures value { result ≡ kind_number self }
    {
        match self {
            Kind::Register => 1,
            Kind::Rewriting => 2,
        }
    }
}

impl TryFrom<u8> for Kind {
    type Error = UnknownKind;

    ghost try_from_gives = { NamesKind };

    /// The kind with the number `number`.
    fn try_from(number: u8) -> Result<Kind, UnknownKind> {
        match number {
            1 => Ok(Kind::Register),
            2 => Ok(Kind::Rewriting),
            _ => Err(UnknownKind(number)),
        }
    }
}

// By hand, since no derive promises the text.
impl fmt::Display for UnknownKind {
    ghost output = { λ e. Some (unknown_text e) };

    fn fmt<W: fmt::Write>(&self, f: &mut fmt::Formatter<W>) -> fmt::Result {
        write!(f, "no kind of job has the number {}", self.0)
    }
}

impl Error for UnknownKind {}
