// The sizes of a run, as a job spells them.
ghost use Rattle.std.specs.Prelude.{◌≡◌};
ghost use Rattle.layout.specs.Judging.{number_at};

use schedule::Sizes;

/// The sizes that the twelve bytes of their body spell.
pub fn sizes_in(body: [u8; 12]) -> Sizes
    ensures fan_out { result.fan_out ≡ number_at 0 1 body }
    ensures depth { result.depth ≡ number_at 1 1 body }
    ensures steps { result.steps ≡ number_at 2 2 body }
    ensures allowance { result.allowance ≡ number_at 4 8 body }
{
    let [fan_out, depth, high, low, a, b, c, d, e, f, g, h] = body;
    Sizes {
        fan_out: u32::from(fan_out),
        depth: u32::from(depth),
        steps: u32::from(u16::from_be_bytes([high, low])),
        allowance: u64::from_be_bytes([a, b, c, d, e, f, g, h]),
    }
}
