//! The line that reports a refusal.
ghost use Rattle.std.specs.Prelude.{◌≡◌, Some, IfOk, string_bytes};
ghost use Rattle.refusal.specs.Faults.{line};

use crate::kinds::Refusal;
use std::alloc::{AllocError, Global};
use std::error::Error;
use std::fmt;

impl fmt::Display for Refusal {
    ghost output = { λ r. Some (line r) };

    fn fmt<W: fmt::Write>(&self, f: &mut fmt::Formatter<W>) -> fmt::Result {
        let Refusal { fault, place } = *self;
        let number = fault.number();
        let layer = fault.layer();
        write!(f, "refused {number} layer {layer} place {place}")
    }
}

impl Error for Refusal {}

/// The line that reports a refusal, in memory of `heap`.
pub fn line(heap: Global, refusal: Refusal) -> Result<String, AllocError>
    ensures value { IfOk result (λ text. string_bytes text ≡ line refusal) }
{
    refusal.to_string(heap)
}
