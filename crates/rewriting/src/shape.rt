// The text of a tableau, and which tableaux are well shaped.
ghost use Rattle.std.specs.Prelude.{◌≡◌, Decides};
ghost use Rattle.rewriting.specs.Tableau.{written};
ghost use Rattle.rewriting.specs.Shape.{WellShaped, well_shaped, all_zero};

use crate::bytes::front;
use crate::tableau::{MOST_BYTES, OVERFLOWED, RewritingTableau};

impl RewritingTableau {
    /// Its text: the first `length` bytes.
    pub fn written(&self) -> &[u8]
        ensures { result.now ≡ written self.now }
    {
        front(&self.text, self.length)
    }

    /// Whether its mark is 0 to 2, its length at most 48 and each byte past the length 0.
    #[tactic(auto, unfolding(crate::specs::Shape::well_shaped))]
    pub fn is_well_shaped(&self) -> bool
        ensures shaped { Decides result (WellShaped self.now) }
        ensures value { result ≡ well_shaped self.now }
    {
        let length = usize::from(self.length);
        self.mark <= OVERFLOWED && length <= MOST_BYTES && is_zero(&self.text[length..])
    }
}

// Whether each of `bytes` is 0.
fn is_zero(bytes: &[u8]) -> bool
    ensures { result ≡ all_zero bytes.now }
{
    bytes.iter().all(|byte| *byte == 0)
}
