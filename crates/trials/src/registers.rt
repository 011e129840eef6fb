//! Steps of the register machine, and their undoing.
use register::{Instruction, Register, RegisterRecord, RegisterTableau, is_halted, step, unstep};
use std::process::Abort;
use std::test::Fail;

fn at(pc: u32, r0: u32, r1: u32) -> RegisterTableau {
    RegisterTableau {
        pc,
        registers: [r0, r1, 0, 0, 0, 0, 0, 0],
    }
}

// One step of `instruction` from pc 0 with `before` in register 3, and its undoing: what register 3 held after the step.
fn one_step(rt: &impl Abort, instruction: Instruction, before: u32) -> u32 {
    let program = [instruction];
    let start = RegisterTableau {
        pc: 0,
        registers: [0, 0, 0, before, 0, 0, 0, 0],
    };
    let mut work = start;
    let noted = step(&program, &mut work);
    let held = work.registers[3];
    assert_eq!(rt;
        noted,
        RegisterRecord {
            pc: 0,
            value: before,
        }
    );
    unstep(&program, &mut work, noted);
    assert_eq!(rt; work, start);
    held
}

#[test]
fn a_decrement_leaves_zero_at_zero(rt: HostRuntime) -> Result<(), Fail> {
    assert_eq!(rt;
        one_step(&rt, Instruction::Decrement(Register::try_from(3)?), 0),
        0
    );
    assert_eq!(rt;
        one_step(&rt, Instruction::Decrement(Register::try_from(3)?), 1),
        0
    );
    Ok(())
}

#[test]
fn a_register_added_to_itself_wraps(rt: HostRuntime) -> Result<(), Fail> {
    let r3 = Register::try_from(3)?;
    assert_eq!(rt;
        one_step(&rt, Instruction::Add { into: r3, from: r3 }, 1 << 31),
        0
    );
    assert_eq!(rt; one_step(&rt, Instruction::Increment(r3), u32::MAX), 0);
    Ok(())
}

#[test]
fn the_counter_moves_one_register_into_another(rt: HostRuntime) -> Result<(), Fail> {
    let program = [
        Instruction::JumpIfZero(Register::try_from(1)?, 4),
        Instruction::Decrement(Register::try_from(1)?),
        Instruction::Increment(Register::try_from(0)?),
        Instruction::Jump(0),
        Instruction::Halt,
    ];
    let mut work = at(0, 2, 1);
    for _ in 0..6 {
        let _ = step(&program, &mut work);
    }
    assert_eq!(rt; work, at(4, 3, 0));
    assert!(rt; is_halted(&program, &work));
    assert!(rt; is_halted(&program, &at(5, 0, 0)));
    Ok(())
}
