//! The register machine on a small program.
ghost use Rattle.register.specs.Laws.Undoing.{register_model};

use crate::walk::{Watched, there_and_back};
use machine::Machine;
use register::{Instruction, Register, RegisterRecord, RegisterTableau, is_halted, step, unstep};
use std::io;

// A register machine of this program's own: those that hold a program of others are made by an accepted job alone. Its like
// in `shortening` calls other functions, which no type holds yet.
#[derive(Clone, Copy)]
struct Counter<'a> {
    program: &'a [Instruction],
}

impl Machine for Counter<'_> {
    type Tableau = RegisterTableau;

    type Record = RegisterRecord;

    ghost model = { λ c. register_model c.program.now };

    fn step(&self, work: &mut RegisterTableau) -> RegisterRecord {
        step(self.program, work)
    }

    fn unstep(&self, work: &mut RegisterTableau, noted: RegisterRecord) {
        unstep(self.program, work, noted);
    }

    fn is_halted(&self, t: &RegisterTableau) -> bool {
        is_halted(self.program, t)
    }
}

impl Watched for Counter<'_> {
    fn show(rt: &HostRuntime, what: &str, t: &RegisterTableau) -> io::Result<()> {
        println!(rt; "{what} pc {} registers {:?}", t.pc, t.registers)
    }

    fn show_step(
        rt: &HostRuntime,
        what: &str,
        t: &RegisterTableau,
        noted: RegisterRecord,
    ) -> io::Result<()> {
        println!(rt;
            "{what} pc {} registers {:?} record {} {}",
            t.pc, t.registers, noted.pc, noted.value
        )
    }
}

/// Counts r1 down and r0 up, six steps forward and six back.
pub(crate) fn count_down(rt: &HostRuntime) -> io::Result<()> {
    let r0 = Register::try_from(0).unwrap();
    let r1 = Register::try_from(1).unwrap();
    let program = [
        Instruction::JumpIfZero(r1, 4),
        Instruction::Decrement(r1),
        Instruction::Increment(r0),
        Instruction::Jump(0),
        Instruction::Halt,
    ];
    let mut work = RegisterTableau {
        pc: 0,
        registers: [2, 1, 0, 0, 0, 0, 0, 0],
    };
    println!(rt; "register machine: jz 1,4; dec 1; inc 0; jmp 0; halt")?;
    there_and_back(rt, &Counter { program: &program }, &mut work, 6)
}
