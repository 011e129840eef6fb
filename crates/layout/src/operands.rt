// What the operands of an instruction may be.
ghost use Rattle.std.specs.Prelude.{◌≡◌};
ghost use Rattle.layout.specs.Programs.{first_operand, second_operand, second, fits, instruction_wrong};

use crate::kinds::Operand;

/// The place of the first wrong byte in the body of an instruction, if any. Whether a target is too far shows at the program's
/// end.
#[tactic(auto, using(crate::proofs::Values::second_read))]
pub fn instruction_wrong(body: [u8; 4]) -> Option<usize>
    ensures { result ≡ instruction_wrong body }
{
    let [op, first, high, low] = body;
    if op > 6 {
        return Some(0);
    }
    if !fits(first_operand(op), u16::from(first)) {
        return Some(1);
    }
    if !fits(second_operand(op), u16::from_be_bytes([high, low])) {
        return Some(2);
    }
    None
}

// What the first operand of the instruction with the number `op` stands for.
fn first_operand(op: u8) -> Operand
    ensures { result ≡ first_operand op }
{
    match op {
        0 | 4 => Operand::Unused,
        _ => Operand::Register,
    }
}

// What its second operand stands for.
fn second_operand(op: u8) -> Operand
    ensures { result ≡ second_operand op }
{
    match op {
        0..=2 => Operand::Unused,
        3 | 4 => Operand::Target,
        _ => Operand::Register,
    }
}

// Whether `operand` may have the value `x`.
fn fits(operand: Operand, x: u16) -> bool
    ensures { result ≡ fits operand x }
{
    match operand {
        Operand::Unused => x == 0,
        Operand::Register => x < 8,
        Operand::Target => true,
    }
}
