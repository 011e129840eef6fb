//! The rewriting machine on a small program.
ghost use Rattle.rewriting.specs.Laws.Undoing.{rewriting_model};

use crate::walk::{Watched, there_and_back};
use machine::Machine;
use rewriting::{RewritingRecord, RewritingTableau, Rule, Side, is_halted, step, unstep};
use std::io;

// A rewriting machine of this program's own, as in `counter`.
#[derive(Clone, Copy)]
struct Shortening<'a> {
    rules: &'a [Rule],
}

impl Machine for Shortening<'_> {
    type Tableau = RewritingTableau;

    type Record = RewritingRecord;

    ghost model = { λ s. rewriting_model s.rules.now };

    fn step(&self, work: &mut RewritingTableau) -> RewritingRecord {
        step(self.rules, work)
    }

    fn unstep(&self, work: &mut RewritingTableau, noted: RewritingRecord) {
        unstep(self.rules, work, noted);
    }

    fn is_halted(&self, t: &RewritingTableau) -> bool {
        is_halted(self.rules, t)
    }
}

impl Watched for Shortening<'_> {
    fn show(rt: &HostRuntime, what: &str, t: &RewritingTableau) -> io::Result<()> {
        let [a, b, c, ..] = t.text;
        println!(rt;
            "{what} mark {} length {} bytes {a} {b} {c}",
            t.mark, t.length
        )
    }

    fn show_step(
        rt: &HostRuntime,
        what: &str,
        t: &RewritingTableau,
        noted: RewritingRecord,
    ) -> io::Result<()> {
        println!(rt; "{what} by rule {} at place {}", noted.code, noted.place)?;
        Self::show(rt, "    ", t)
    }
}

/// Takes each `a` away that stands before a `b`, three steps forward and three back.
pub(crate) fn shorten(rt: &HostRuntime) -> io::Result<()> {
    let rules = [Rule {
        last: false,
        left: Side::try_from(b"ab".as_slice()).unwrap(),
        right: Side::try_from(b"b".as_slice()).unwrap(),
    }];
    let mut work = RewritingTableau::try_from(b"aab".as_slice()).unwrap();
    println!(rt; "rewriting machine: ab to b")?;
    there_and_back(rt, &Shortening { rules: &rules }, &mut work, 3)
}
