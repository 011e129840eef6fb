// The rules of a rewriting machine.
ghost use Rattle.rewriting.specs.Ranges.{ShortText};

/// One side of a rule: a text of at most 8 bytes.
#[derive(Clone, Copy, Debug)]
pub struct Side {
    // No heap: rules are copied, and lent as one slice, so each side holds its own bytes.
    pub(crate) bytes: [u8; 8],
    pub(crate) length: u8,
    // A side is read only up to its length; the other two facts are what the types already say.
    ghost short: { ShortText bytes length },
}

/// Puts `right` in place of `left`; after a final rule the machine stands still.
#[derive(Clone, Copy, Debug)]
pub struct Rule {
    pub last: bool,
    pub left: Side,
    pub right: Side,
}
