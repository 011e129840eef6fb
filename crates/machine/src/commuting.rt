// Tableaux whose sum may be taken either way round.
ghost use Rattle.machine.specs.Sum.{Commutes};

use crate::tableau::Tableau;

/// A tableau whose sum may be taken either way round.
///
/// No code and no proof of this crate uses it: what was added is taken away again from the right.
pub trait Commuting: Tableau {
    ghost commutes: { Commutes Self.Tableau.sum };
}
