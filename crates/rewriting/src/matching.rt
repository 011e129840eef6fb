// Where a rule applies.

/// A rule of a table, counted from 0, and the place in a text where it applies.
#[derive(Clone, Copy, PartialEq, Eq, Debug)]
pub struct Match {
    // An index and no reference, since the record of a step keeps it.
    pub rule: usize,
    pub place: usize,
}
