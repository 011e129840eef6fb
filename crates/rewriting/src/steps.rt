// One step of the rewriting machine on a lent table of rules, and its undoing.
//
// Functions, since a machine that holds its rules is to be made by an accepted job alone.
ghost use Rattle.std.specs.Prelude.{◌≡◌, ◌-◌, ◌<◌, ◌≤◌, ◌↔◌, true, length, IsSome, IfSome, Decides, slice_index_or};
ghost use Rattle.rewriting.specs.Tableau.{written};
ghost use Rattle.rewriting.specs.Occurs.{side, program, no_rule, Occurs};
ghost use Rattle.rewriting.specs.Step.{next, applied, noted, after, trace, back, halted};
ghost use Rattle.rewriting.specs.Relation.{Still, Next, Stepped};

use crate::marking::mark_after;
use crate::matching::Match;
use crate::record::{OVERFLOW, RewritingRecord};
use crate::rule::Rule;
use crate::searching::{choose, program};
use crate::tableau::{OVERFLOWED, RUNNING, RewritingTableau};
use machine::Record;

/// Makes one step on `work` by the first rule that applies, and answers the record that undoes it.
///
/// Only the first 32 rules of the table are used.
pub fn step(rules: &[Rule], work: &mut RewritingTableau) -> RewritingRecord
    ensures stepped { Stepped rules.now work.old work.new result }
    ensures after { work.new ≡ after rules.now work.old }
    ensures trace { result ≡ trace rules.now work.old }
    ensures undone { back rules.now work.new result ≡ work.old }
{
    let used = program(rules);
    let Some(found) = next_match(used, work) else {
        return RewritingRecord::blank();
    };
    apply(&used[found.rule], found, work)
}

/// Undoes one step on `work`, by the record that the step noted.
///
/// It leaves `work` as it is where that is ill shaped, no rule has the code, or a text would not fit.
pub fn unstep(rules: &[Rule], work: &mut RewritingTableau, noted: RewritingRecord)
    ensures { work.new ≡ back rules.now work.old noted }
{
    if !work.is_well_shaped() {
        return;
    }
    if noted.code == OVERFLOW {
        work.set_mark(RUNNING);
    } else if let Some(rule) = rule_of(program(rules), noted.code) {
        work.substitute(usize::from(noted.place), &rule.right, &rule.left, RUNNING);
    }
}

/// Whether the machine stands still at `t`: it is ill shaped or marked, or no rule applies.
pub fn is_halted(rules: &[Rule], t: &RewritingTableau) -> bool
    ensures value { result ≡ halted rules.now t.now }
    ensures still { Decides result (Still (program rules.now) t.now) }
    ensures rest { result ≡ true → after rules.now t.now ≡ t.now }
{
    next_match(program(rules), t).is_none()
}

// The rule that a step from `t` uses, and where.
fn next_match(rules: &[Rule], t: &RewritingTableau) -> Option<Match>
    ensures value { result ≡ next rules.now t.now }
    ensures used { Next rules.now t.now result }
{
    if t.is_well_shaped() && t.mark == RUNNING {
        choose(rules, t.written())
    } else {
        None
    }
}

// The rule with the number `code`, counted from 1, if there is one.
fn rule_of(rules: &[Rule], code: u8) -> Option<&Rule>
    ensures there { IsSome result ↔ (0 < code) × (code ≤ length rules.now) }
    ensures value { IfSome result (λ r. r.now ≡ slice_index_or rules.now (code - 1) no_rule) }
{
    let index = usize::from(code).checked_sub(1)?;
    rules.get(index)
}

// Puts the right side of `rule` in place of its left side, which occurs at the place that was found.
fn apply(rule: &Rule, found: Match, work: &mut RewritingTableau) -> RewritingRecord
    requires numbered { found.rule < 32 }
    requires occurs { Occurs (side rule.now.left) (written work.old) found.place }
    ensures after { work.new ≡ applied rule.now found.place work.old }
    ensures noted { result ≡ noted rule.now found work.old }
{
    if work.substitute(found.place, &rule.left, &rule.right, mark_after(rule)) {
        RewritingRecord {
            code: found.rule as u8 + 1,
            place: found.place as u8,
        }
    } else {
        work.set_mark(OVERFLOWED);
        RewritingRecord {
            code: OVERFLOW,
            place: 0,
        }
    }
}
