// The head and the body of a field.
ghost use Rattle.std.specs.Prelude.{◌≡◌, Ok, Err, MatchResult};
ghost use Rattle.layout.specs.Fields.{legal, body_at};

use crate::kinds::Lengths;
use refusal::{Fault, Refusal};

/// The body of the field with the tag `tag` that is due at the front of `bytes`, which begin at `place` in the job. Its head, its
/// tag, its length and its body are judged in this order.
pub fn body_at(
    tag: u8,
    lengths: Option<Lengths>,
    place: usize,
    bytes: &[u8],
) -> Result<&[u8], Refusal>
    ensures { MatchResult result (λ body. body_at tag lengths place bytes.now ≡ Ok body.now) (λ refusal. body_at tag lengths place bytes.now ≡ Err refusal) }
{
    let [found, high, low, rest @ ..] = bytes else {
        return Err(Refusal::new(Fault::Cut, place));
    };
    if *found != tag {
        return Err(Refusal::new(Fault::Tag, place));
    }
    let size = u16::from_be_bytes([*high, *low]) as usize;
    if !is_legal(lengths, size) {
        return Err(Refusal::new(Fault::Length, place));
    }
    if size > rest.len() {
        return Err(Refusal::new(Fault::Cut, place));
    }
    Ok(&rest[..size])
}

// Whether a body may have the length `size`.
fn is_legal(lengths: Option<Lengths>, size: usize) -> bool
    ensures { result ≡ legal lengths size }
{
    match lengths {
        Some(lengths) => (lengths.least..=lengths.most).contains(&size),
        None => true,
    }
}
