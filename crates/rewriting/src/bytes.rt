// A text at the front of a row of bytes.
ghost use Rattle.std.specs.Prelude.{◌≡◌, ◌<◌, ◌≤◌, length, take, MatchResult};
ghost use Rattle.rewriting.specs.Splice.{padded};

use crate::too_long::TooLong;

/// The bytes of `text` with 0 past them, and how many they are.
pub(crate) fn padded<const N: usize>(text: &[u8]) -> Result<([u8; N], u8), TooLong>
    requires { N < 256 }
    ensures { MatchResult result (λ made. (length text.now ≤ N) × (made.0 ≡ padded N text.now) × (made.1 ≡ length text.now)) (λ _. N < length text.now) }
{
    if text.len() > N {
        return Err(TooLong);
    }
    let mut bytes = [0; N];
    bytes[..text.len()].copy_from_slice(text);
    Ok((bytes, text.len() as u8))
}

/// The first `length` of `bytes`, or all where they are fewer.
pub(crate) fn front(bytes: &[u8], length: u8) -> &[u8]
    ensures { result.now ≡ take length bytes.now }
{
    &bytes[..usize::from(length).min(bytes.len())]
}
