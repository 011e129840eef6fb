//! The faults, and a refusal: a fault at a place.

/// A reason to refuse. Each says when it is raised and which place is reported with it.
#[derive(Clone, Copy, PartialEq, Eq, Debug)]
pub enum Fault {
    /// A head or a body reaches past the end of the field or job that holds it. Place: the head.
    Cut,
    /// A tag stands where another one is due. Place: the tag byte.
    Tag,
    /// A field has a length that it cannot have. Place: the head.
    Length,
    /// A byte or a number is outside its range. Place: the wrong byte, of a number its first byte; for a rewriting
    /// rule whose sides do not fit its length, the byte of the left length.
    Value,
    /// There is one inner field more than allowed. Place: the first byte of that field.
    Count,
    /// Bytes follow the last field. Place: the first of them.
    Tail,
    /// The fan-out, the depth, the steps or the allowance is out of range. Place: 0, 1, 2 or 4, where it stands among
    /// the bytes of the sizes; a job adds 7, since their body begins there.
    Sizes,
    /// The lent shelf has fewer slots than the run needs. Place: 0.
    Shelf,
    /// The lent trail has fewer places than a segment has steps. Place: 0.
    Trail,
    /// A call goes forward past the last tick or back past tick 0, or names a move that is not below the number of
    /// moves. Place: 0.
    End,
    /// The ticks passed in both directions and the ticks asked for exceed the allowance. Place: 0.
    Allowance,
    /// The lent program table, move list or job buffer is too short. Place: 0.
    Room,
}

/// A fault, and the place where it was found.
#[derive(Clone, Copy, PartialEq, Eq, Debug)]
pub struct Refusal {
    pub fault: Fault,
    /// The offset of a byte, or 0 where the fault has no byte.
    // No Option: a report prints a place for every fault.
    pub place: usize,
}
