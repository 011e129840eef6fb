// The whole state of a rewriting machine.
ghost use Rattle.rewriting.specs.Ranges.{Ranged};

/// How many bytes a text has at most.
pub const MOST_BYTES: usize = 48;

/// The mark of a machine that goes on.
pub const RUNNING: u8 = 0;

/// The mark after a final rule.
pub const ENDED: u8 = 1;

/// The mark where a text would not have fitted.
pub const OVERFLOWED: u8 = 2;

/// A mark, and a text in the first `length` of 48 bytes.
#[derive(Clone, Copy, PartialEq, Eq, Debug)]
pub struct RewritingTableau {
    // No enum and no text: tableaux are summed byte by byte, so every byte may be a mark or a length.
    pub mark: u8,
    pub length: u8,
    pub text: [u8; 48],
    // What the types above already say; with it the laws hold of every value.
    ghost ranged: { Ranged mark length text },
}
