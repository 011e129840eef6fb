//! A walk of any machine, there and back.
ghost use Rattle.std.specs.Prelude.{◌≡◌, true, is_ok};

use machine::Machine;
use std::io;

/// A machine whose steps can be shown.
// By functions and no Display, since tableaux and records are types of other crates.
pub(crate) trait Watched: Machine {
    /// Prints the tableau.
    fn show(rt: &HostRuntime, what: &str, t: &Self::Tableau) -> io::Result<()>;

    /// Prints the tableau that a step led to or back to, and the record of that step.
    fn show_step(
        rt: &HostRuntime,
        what: &str,
        t: &Self::Tableau,
        noted: Self::Record,
    ) -> io::Result<()>;
}

/// Goes `steps` steps forward and all of them back.
pub(crate) fn there_and_back<M: Watched>(
    rt: &HostRuntime,
    machine: &M,
    work: &mut M::Tableau,
    steps: u32,
) -> io::Result<()>
    ensures home { is_ok result ≡ true → work.new ≡ work.old }
{
    let mut noted = Vec::new(rt.alloc());
    M::show(rt, "start", work)?;
    'forward: for _ in 0..steps {
        let record = machine.step(work);
        noted.push(record)?;
        M::show_step(rt, "step", work, record)?;
    }
    let halted = machine.is_halted(work);
    println!(rt; "halted {halted}")?;
    'back: while let Some(record) = noted.pop() {
        machine.unstep(work, record);
        M::show_step(rt, "back", work, record)?;
    }
    Ok(())
}
