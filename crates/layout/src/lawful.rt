// What holds of the layout of every job.
ghost use Rattle.layout.specs.Laws.{WrittenReads, ReadWrites, RefusalPlaced};

/// Says, for every job and all bytes, what `encode` and `judge` of the specs have to do with each other. It does nothing.
///
/// A well formed job, written, reads as that job. Bytes that are accepted are what their job is written as, and that job is well
/// formed. A refusal is one of the seven that a job can get, and its place lies within the bytes, or at their end where
/// something is due and nothing is left.
pub fn laws()
    ensures written_reads { WrittenReads }
    ensures read_writes { ReadWrites }
    ensures refusal_placed { RefusalPlaced }
{}
