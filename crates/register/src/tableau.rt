// The whole state of a register machine.
ghost use Rattle.register.specs.Ranges.{Ranged};

/// The program counter and the eight registers.
#[derive(Clone, Copy, PartialEq, Eq, Debug)]
pub struct RegisterTableau {
    pub pc: u32,
    pub registers: [u32; 8],
    // What the types above already say; with it the laws hold of every value.
    ghost ranged: { Ranged pc registers },
}
