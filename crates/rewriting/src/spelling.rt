// The tableau of a text.
ghost use Rattle.rewriting.specs.Conversion.{MakesTableau};

use crate::bytes::padded;
use crate::tableau::{RUNNING, RewritingTableau};
use crate::too_long::TooLong;

impl TryFrom<&[u8]> for RewritingTableau {
    type Error = TooLong;

    ghost try_from_gives = { λ text made. MakesTableau text.now made };

    /// The tableau with mark 0 and the text `text`, which has at most 48 bytes.
    fn try_from(text: &[u8]) -> Result<RewritingTableau, TooLong> {
        let (text, length) = padded(text)?;
        Ok(RewritingTableau {
            mark: RUNNING,
            length,
            text,
        })
    }
}
