// One step of the register machine on a lent program, and its undoing.
//
// Functions, since a machine that holds its program is to be made by an accepted job alone.
ghost use Rattle.std.specs.Prelude.{◌≡◌, true};
ghost use Rattle.register.specs.Tableau.{put};
ghost use Rattle.register.specs.Step.{at, written, effect, next, old_value, after, trace, back, halted};

use crate::instruction::Instruction;
use crate::record::RegisterRecord;
use crate::registers::Register;
use crate::tableau::RegisterTableau;

/// Makes one step on `work` and answers the record that undoes it. A halted machine stays where it is.
pub fn step(program: &[Instruction], work: &mut RegisterTableau) -> RegisterRecord
    ensures after { work.new ≡ after program.now work.old }
    ensures trace { result ≡ trace program.now work.old }
    ensures undone { back program.now work.new result ≡ work.old }
    ensures rest { halted program.now work.old ≡ true → work.new ≡ work.old }
{
    let pc = work.pc;
    let instruction = instruction_at(program, pc);
    let value = value_before(instruction, work);
    execute(instruction, work);
    RegisterRecord { pc, value }
}

/// Undoes one step on `work`, by the record that the step noted.
pub fn unstep(program: &[Instruction], work: &mut RegisterTableau, noted: RegisterRecord)
    ensures { work.new ≡ back program.now work.old noted }
{
    work.go_to(noted.pc);
    if let Some(register) = written_by(instruction_at(program, noted.pc)) {
        work.put(register, noted.value);
    }
}

/// Whether the machine stands still at `t`: past the program's end, or at a `Halt`.
pub fn is_halted(program: &[Instruction], t: &RegisterTableau) -> bool
    ensures { result ≡ halted program.now t.now }
{
    instruction_at(program, t.pc) == Instruction::Halt
}

// The instruction at `place`, and a `Halt` past the program's end.
fn instruction_at(program: &[Instruction], place: u32) -> Instruction
    ensures { result ≡ at program.now place }
{
    // A `match`, since `copied().unwrap_or(..)` makes a step six times slower.
    match program.get(place as usize) {
        Some(instruction) => *instruction,
        None => Instruction::Halt,
    }
}

// The register that `instruction` writes, if any.
fn written_by(instruction: Instruction) -> Option<Register>
    ensures { result ≡ written instruction }
{
    match instruction {
        Instruction::Increment(register) | Instruction::Decrement(register) => Some(register),
        Instruction::Copy { into, .. } | Instruction::Add { into, .. } => Some(into),
        Instruction::Halt | Instruction::JumpIfZero(..) | Instruction::Jump(_) => None,
    }
}

// What the register holds that `instruction` is about to write, and 0 where it writes none.
fn value_before(instruction: Instruction, t: &RegisterTableau) -> u32
    ensures { result ≡ old_value t.now (written instruction) }
{
    written_by(instruction).map_or(0, |register| t.held(register))
}

// Goes on to the next instruction.
fn go_on(work: &mut RegisterTableau)
    ensures { work.new ≡ next work.old }
{
    work.go_to(work.pc.wrapping_add(1));
}

// Goes on to the next instruction and puts `value` into `register`.
fn go_on_with(work: &mut RegisterTableau, register: Register, value: u32)
    ensures { work.new ≡ put (next work.old) register.index value }
{
    go_on(work);
    work.put(register, value);
}

// What `instruction` does to `work`.
fn execute(instruction: Instruction, work: &mut RegisterTableau)
    ensures { work.new ≡ effect instruction work.old }
{
    match instruction {
        Instruction::Halt => {}
        Instruction::Increment(register) => {
            let value = work.held(register).wrapping_add(1);
            go_on_with(work, register, value);
        }
        Instruction::Decrement(register) => {
            let value = work.held(register).saturating_sub(1);
            go_on_with(work, register, value);
        }
        Instruction::JumpIfZero(tested, place) => {
            if work.held(tested) == 0 {
                work.go_to(u32::from(place));
            } else {
                go_on(work);
            }
        }
        Instruction::Jump(place) => work.go_to(u32::from(place)),
        Instruction::Copy { into, from } => {
            let value = work.held(from);
            go_on_with(work, into, value);
        }
        Instruction::Add { into, from } => {
            let value = work.held(into).wrapping_add(work.held(from));
            go_on_with(work, into, value);
        }
    }
}
