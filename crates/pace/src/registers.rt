//! Steps of the register machine, forward and back.
use crate::timing::shortest;
use register::{Instruction, Register, RegisterTableau, step, unstep};

const STEPS: u32 = 10_000_000;

pub(crate) fn time_registers(rt: &HostRuntime) -> anyhow::Result<()> {
    let r0 = Register::try_from(0)?;
    let r1 = Register::try_from(1)?;
    let program = [
        Instruction::JumpIfZero(r1, 4),
        Instruction::Decrement(r1),
        Instruction::Add { into: r0, from: r1 },
        Instruction::Jump(0),
        Instruction::Halt,
    ];
    let (forward, there) = shortest(rt, || steps(&program))?;
    let (both, back) = shortest(rt, || steps_and_back(&program))?;
    let sum = there.wrapping_add(back);
    println!(rt; "register steps {STEPS} sum {sum}")?;
    eprintln!(rt; "register_step {STEPS} {forward}")?;
    eprintln!(rt; "register_step_and_unstep {STEPS} {both}")?;
    Ok(())
}

fn beginning() -> RegisterTableau {
    RegisterTableau {
        pc: 0,
        registers: [0, STEPS, 0, 0, 0, 0, 0, 0],
    }
}

// A sum of all records of a long walk, and of where it ends. This loop and the next one are written out, since a benchmark
// shows the loop that it times.
fn steps(program: &[Instruction]) -> u32 {
    let mut work = beginning();
    let mut sum = 0u32;
    for _ in 0..STEPS {
        let noted = step(program, &mut work);
        sum = sum.wrapping_add(noted.value ^ noted.pc);
    }
    sum.wrapping_add(work.registers[0])
}

// The same with each step taken back and made again.
fn steps_and_back(program: &[Instruction]) -> u32 {
    let mut work = beginning();
    let mut sum = 0u32;
    for _ in 0..STEPS {
        let noted = step(program, &mut work);
        unstep(program, &mut work, noted);
        let again = step(program, &mut work);
        sum = sum.wrapping_add(again.value ^ noted.pc);
    }
    sum.wrapping_add(work.registers[0])
}
