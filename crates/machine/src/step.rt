// A machine: its step, the way back and where it halts.
ghost use Rattle.std.specs.Prelude.{◌≡◌};
ghost use Rattle.machine.specs.Model.{Model};

use crate::commuting::Commuting;
use crate::record::Record;
use crate::tableau::Tableau;

/// A machine whose every step can be undone.
///
/// Whoever implements it proves the laws of its `Model`, so they hold of every machine under this bound.
pub trait Machine {
    /// The whole state that a step works on.
    type Tableau: Tableau + Commuting;

    /// What a step notes.
    type Record: Record;

    /// What this machine does, with its laws proved.
    ghost model: { Self → Model Self.Tableau Self.Record };

    /// Makes one step on `work` and answers the record that undoes it.
    fn step(&self, work: &mut Self::Tableau) -> Self::Record
        ensures after { work.new ≡ (model self.now).after work.old }
        ensures trace { result ≡ (model self.now).trace work.old };

    /// Undoes one step on `work`, by the record that the step noted.
    fn unstep(&self, work: &mut Self::Tableau, noted: Self::Record)
        ensures { work.new ≡ (model self.now).back work.old noted };

    /// Whether the machine stands still at `t`.
    fn is_halted(&self, t: &Self::Tableau) -> bool
        ensures { result ≡ (model self.now).halted t.now };
}

/// Makes one step and undoes it: `work` is then as it was, on every machine and at every tableau.
pub fn there_and_back<M: Machine>(machine: &M, work: &mut M::Tableau)
    ensures { work.new ≡ work.old }
{
    let noted = machine.step(work);
    machine.unstep(work, noted);
}
