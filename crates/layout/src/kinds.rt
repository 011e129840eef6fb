// The kinds of job, and what the fields of a job may be.

/// The machine that a job is for.
#[derive(Clone, Copy, PartialEq, Eq, Debug)]
pub enum Kind {
    /// The register machine; its number in a job is 1.
    Register,
    /// The rewriting machine; its number in a job is 2.
    Rewriting,
}

/// A number that names no kind of job.
#[derive(Clone, Copy, PartialEq, Eq, Debug)]
pub struct UnknownKind(pub u8);

/// How long the body of a field may be, both numbers included. A body without such bounds may be as long as its two
/// length bytes can say.
#[derive(Clone, Copy, PartialEq, Eq, Debug)]
pub struct Lengths {
    pub least: usize,
    pub most: usize,
}

/// What an operand of an instruction stands for.
#[derive(Clone, Copy, PartialEq, Eq, Debug)]
pub enum Operand {
    /// Nothing: it is 0.
    Unused,
    /// A register, 0 to 7.
    Register,
    /// The place of an instruction, or the place behind the last one.
    Target,
}
