// Sums of register tableaux, place by place modulo 2^32, their `==`, and the blank record.
ghost use Rattle.std.specs.Prelude.{ℕ, ◌<◌};
ghost use Rattle.register.specs.Tableau.{held, note};
ghost use Rattle.register.specs.Laws.Equality.{equal_is_same};
ghost use Rattle.register.specs.Laws.Summing.{register_sum, plus_commutes};

use crate::record::RegisterRecord;
use crate::tableau::RegisterTableau;
use machine::{Commuting, Exact, Record, Tableau};
use std::array;

impl Tableau for RegisterTableau {
    ghost sum = { register_sum };

    fn zero() -> RegisterTableau {
        RegisterTableau {
            pc: 0,
            registers: [0; 8],
        }
    }

    fn plus(&mut self, other: &RegisterTableau) {
        *self = combined(self, other, |held, added| held.wrapping_add(added));
    }

    fn minus(&mut self, other: &RegisterTableau) {
        *self = combined(self, other, |held, taken| held.wrapping_sub(taken));
    }
}

// The tableau that has at each place what `op` makes of what `a` and `b` have there.
fn combined<F: Fn(u32, u32) -> u32>(
    a: &RegisterTableau,
    b: &RegisterTableau,
    op: F,
) -> RegisterTableau
    requires { F.IsAlwaysCallable op }
    ensures pc { F.post op a.now.pc b.now.pc result.pc }
    ensures registers { (k : ℕ) → k < 8 → F.post op (held a.now k) (held b.now k) (held result k) }
{
    RegisterTableau {
        pc: op(a.pc, b.pc),
        registers: array::from_fn(
            |k: usize| -> u32
                requires below { k < 8 }
                requires callable { F.IsAlwaysCallable op }
                ensures { F.post op (held a.entry.now k) (held b.entry.now k) result }
            { op(a.registers[k], b.registers[k]) },
        ),
    }
}

impl Commuting for RegisterTableau {
    ghost commutes = { plus_commutes };
}

impl Exact for RegisterTableau {
    ghost exact = { equal_is_same };
}

impl Record for RegisterRecord {
    ghost blank = { note 0 0 };

    fn blank() -> RegisterRecord {
        RegisterRecord { pc: 0, value: 0 }
    }
}
