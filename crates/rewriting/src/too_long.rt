// What stops a text from being a side or a tableau.
ghost use Rattle.std.specs.Prelude.{Some, codes};

use std::error::Error;
use std::fmt;

/// A text has more bytes than there is room for.
#[derive(Clone, Copy, Debug, PartialEq, Eq)]
pub struct TooLong;

// By hand, since no derive promises the text.
impl fmt::Display for TooLong {
    ghost output = { λ _. Some (codes "a text is too long") };

    fn fmt<W: fmt::Write>(&self, f: &mut fmt::Formatter<W>) -> fmt::Result {
        f.write_str("a text is too long")
    }
}

impl Error for TooLong {}
