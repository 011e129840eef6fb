// What one step of a rewriting machine notes.
ghost use Rattle.rewriting.specs.Ranges.{TwoBytes};

/// The code of a machine that stood still; its place is 0.
pub const STOOD_STILL: u8 = 0;

/// The code of a step whose text would not have fitted; its place is 0, and the codes between are those of rules.
pub const OVERFLOW: u8 = 33;

/// The number of the rule that was used, counted from 1, and the place where it was used.
///
/// Two codes are of no rule: `STOOD_STILL` and `OVERFLOW`.
#[derive(Clone, Copy, PartialEq, Eq, Debug)]
pub struct RewritingRecord {
    // No enum: a record is two bytes, and undoing answers for every two.
    pub code: u8,
    pub place: u8,
    // What the types above already say; with it the laws hold of every value.
    ghost ranged: { TwoBytes code place },
}
