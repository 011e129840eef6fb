// How an instruction reads and changes a tableau.
ghost use Rattle.std.specs.Prelude.{◌≡◌};
ghost use Rattle.register.specs.Tableau.{held, put, go_to};

use crate::registers::Register;
use crate::tableau::RegisterTableau;

impl RegisterTableau {
    /// What `register` holds.
    pub fn held(&self, register: Register) -> u32
        ensures { result ≡ held self.now register.index }
    {
        self.registers[register.index()]
    }

    /// Puts `value` into `register`.
    pub fn put(&mut self, register: Register, value: u32)
        ensures { self.new ≡ put self.old register.index value }
    {
        let index = register.index();
        self.registers[index] = value;
    }

    /// Sets the program counter to `place`.
    pub fn go_to(&mut self, place: u32)
        ensures { self.new ≡ go_to self.old place }
    {
        self.pc = place;
    }
}
