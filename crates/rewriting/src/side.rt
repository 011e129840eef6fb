// How the sides of a rule are made and read.
ghost use Rattle.std.specs.Prelude.{◌≡◌};
ghost use Rattle.rewriting.specs.Occurs.{side};
ghost use Rattle.rewriting.specs.Conversion.{MakesSide};

use crate::bytes::{front, padded};
use crate::rule::Side;
use crate::too_long::TooLong;

impl TryFrom<&[u8]> for Side {
    type Error = TooLong;

    ghost try_from_gives = { λ text made. MakesSide text.now made };

    /// The side with the bytes of `text`, which are at most 8.
    fn try_from(text: &[u8]) -> Result<Side, TooLong> {
        let (bytes, length) = padded(text)?;
        Ok(Side { bytes, length })
    }
}

impl Side {
    /// Its bytes, at most 8.
    pub fn text(&self) -> &[u8]
        ensures { result.now ≡ side self.now }
    {
        front(&self.bytes, self.length)
    }
}
