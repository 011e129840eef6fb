// What one step of a register machine notes.
ghost use Rattle.register.specs.Ranges.{Words};

/// The program counter before the step, and what the register held that the step wrote (0 where it wrote none).
#[derive(Clone, Copy, PartialEq, Eq, Debug)]
pub struct RegisterRecord {
    pub pc: u32,
    // No Option: a record is two words, and undoing answers for every two.
    pub value: u32,
    // What the types above already say; with it the laws hold of every value.
    ghost ranged: { Words pc value },
}
