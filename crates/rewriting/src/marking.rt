// The mark of a tableau.
ghost use Rattle.std.specs.Prelude.{◌≡◌};
ghost use Rattle.rewriting.specs.Tableau.{marked};
ghost use Rattle.rewriting.specs.Step.{mark_after};

use crate::rule::Rule;
use crate::tableau::{ENDED, RUNNING, RewritingTableau};

impl RewritingTableau {
    /// Sets the mark.
    pub fn set_mark(&mut self, mark: u8)
        ensures { self.new ≡ marked self.old mark }
    {
        self.mark = mark;
    }
}

// The mark after a step by `rule`: `ENDED`, which is 1, after a final one, and else `RUNNING`, which is 0.
pub(crate) fn mark_after(rule: &Rule) -> u8
    ensures { result ≡ mark_after rule.now }
{
    if rule.last { ENDED } else { RUNNING }
}
