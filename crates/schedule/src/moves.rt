// One move of the schedule: which way it goes and by which segment.

mod turning;

/// What a move does to its checkpoint.
#[derive(Clone, Copy, PartialEq, Eq, Debug)]
pub enum Change {
    /// The checkpoint behind the segment is put on the shelf.
    Place,
    /// The checkpoint behind the segment is taken off the shelf.
    Remove,
}

/// A move by segment `s` places or removes checkpoint `s + 1`, working from checkpoint `s`.
#[derive(Clone, Copy, PartialEq, Eq, Debug)]
pub struct Move {
    pub change: Change,
    pub segment: u32,
}
