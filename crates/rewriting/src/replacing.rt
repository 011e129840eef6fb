// One part of a text replaced by another, within the bytes that hold the text.
ghost use Rattle.std.specs.Prelude.{◌≡◌, ◌+◌, ◌-◌, ◌≤◌, length};
ghost use Rattle.rewriting.specs.Splice.{replaced};

/// Puts `new` in place of the `old` bytes from `place` on, in the text that the first `used` of `bytes` hold.
///
/// The bytes are a tableau's, whose length is a byte of its own, so `used` stands beside them. The tail is shifted once,
/// `new` is written over the gap, and past the new text are only 0.
pub(crate) fn replace(bytes: &mut [u8], used: usize, place: usize, old: usize, new: &[u8])
    requires inside { place + old ≤ used }
    requires held { used ≤ length bytes.old }
    requires room { used - old + length new.now ≤ length bytes.old }
    ensures { bytes.new ≡ replaced bytes.old used place old new.now }
{
    let gap = place + new.len();
    bytes.copy_within(place + old..used, gap);
    bytes[place..gap].copy_from_slice(new);
    bytes[used - old + new.len()..].fill(0);
}
