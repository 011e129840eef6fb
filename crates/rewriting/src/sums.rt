// Sums of rewriting tableaux, byte by byte modulo 256, their `==`, and the blank record.
ghost use Rattle.std.specs.Prelude.{ℕ, ◌<◌};
ghost use Rattle.rewriting.specs.Tableau.{held, note};
ghost use Rattle.rewriting.specs.Laws.Equality.{equal_is_same};
ghost use Rattle.rewriting.specs.Laws.Summing.{rewriting_sum, plus_commutes};

use crate::record::{RewritingRecord, STOOD_STILL};
use crate::tableau::{RUNNING, RewritingTableau};
use machine::{Commuting, Exact, Record, Tableau};
use std::array;

impl Tableau for RewritingTableau {
    ghost sum = { rewriting_sum };

    fn zero() -> RewritingTableau {
        RewritingTableau {
            mark: RUNNING,
            length: 0,
            text: [0; 48],
        }
    }

    fn plus(&mut self, other: &RewritingTableau) {
        *self = combined(self, other, |held, added| held.wrapping_add(added));
    }

    fn minus(&mut self, other: &RewritingTableau) {
        *self = combined(self, other, |held, taken| held.wrapping_sub(taken));
    }
}

// The tableau that has at each byte what `op` makes of what `a` and `b` have there.
fn combined<F: Fn(u8, u8) -> u8>(
    a: &RewritingTableau,
    b: &RewritingTableau,
    op: F,
) -> RewritingTableau
    requires { F.IsAlwaysCallable op }
    ensures mark { F.post op a.now.mark b.now.mark result.mark }
    ensures length { F.post op a.now.length b.now.length result.length }
    ensures bytes { (k : ℕ) → k < 48 → F.post op (held a.now k) (held b.now k) (held result k) }
{
    RewritingTableau {
        mark: op(a.mark, b.mark),
        length: op(a.length, b.length),
        text: array::from_fn(
            |k: usize| -> u8
                requires below { k < 48 }
                requires callable { F.IsAlwaysCallable op }
                ensures { F.post op (held a.entry.now k) (held b.entry.now k) result }
            { op(a.text[k], b.text[k]) },
        ),
    }
}

impl Commuting for RewritingTableau {
    ghost commutes = { plus_commutes };
}

impl Exact for RewritingTableau {
    ghost exact = { equal_is_same };
}

impl Record for RewritingRecord {
    ghost blank = { note 0 0 };

    fn blank() -> RewritingRecord {
        RewritingRecord {
            code: STOOD_STILL,
            place: 0,
        }
    }
}
