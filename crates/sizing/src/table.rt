//! The moves of a plan as rows of a table, from the front and up to the end.
ghost use Rattle.std.specs.Prelude.{◌≡◌, ℕ, ◌-◌, ◌^◌, ◌<◌, ◌≤◌, min, Some, IfOk};
ghost use Rattle.std.specs.Iterator.{YieldsFirst, item_count};
ghost use Rattle.schedule.specs.declared.moves.Change.TheVariants.{Place, Remove};
ghost use Rattle.schedule.specs.Answers.{moves_of};
ghost use Rattle.sizing.specs.Rows.{live_of, rows, rows_left, counted_on};
ghost use Rattle.sizing.specs.Texts.{row_text};

use schedule::{Change, Move, Plan};
use std::alloc::{AllocError, Global};
use std::fmt;

/// One move, the slot of the checkpoint that it places or removes, and how many are live behind it.
#[derive(Clone, Copy)]
pub struct Row {
    pub made: Move,
    pub slot: u32,
    pub live: u32,
}

impl fmt::Display for Row {
    ghost output = { λ r. Some (row_text r) };

    fn fmt<W: fmt::Write>(&self, f: &mut fmt::Formatter<W>) -> fmt::Result {
        let sign = match self.made.change {
            Change::Place => "+",
            Change::Remove => "-",
        };
        write!(
            f,
            "{sign}{}/{} live {}",
            self.made.segment, self.slot, self.live
        )
    }
}

// `front` and `back` are handed memory and plan, as the report is: memory comes first in all code that allocates.

/// The rows of the first `count` moves of `plan`, or of all where it has fewer.
pub fn front(heap: Global, plan: &Plan, count: u64) -> Result<Vec<Row>, AllocError>
    ensures items { IfOk result (λ v. v.items ≡ rows plan.now 0 (min count (moves_of plan.now))) }
{
    Rows::from_start(plan).take(count as usize).collect(heap)
}

/// The rows of the last `count` moves of `plan`, or of all where it has fewer.
pub fn back(heap: Global, plan: &Plan, count: u64) -> Result<Vec<Row>, AllocError>
    ensures items { IfOk result (λ v. v.items ≡ rows plan.now (moves_of plan.now - min count (moves_of plan.now)) (min count (moves_of plan.now))) }
{
    Rows::from_move(plan, plan.moves().saturating_sub(count)).collect(heap)
}

// The rows of a plan's moves, one after the other.
#[derive(Drop)]
struct Rows<'a> {
    plan: &'a Plan,
    // the number of the next move
    next: u64,
    // how many checkpoints are live before it
    live: u32,
    ghost live_is: { live ≡ live_of plan.now next },
}

impl<'a> Rows<'a> {
    // The rows of all moves of `plan`.
    #[tactic(auto, using(crate::proofs::Counting::live_start))]
    fn from_start(plan: &'a Plan) -> Self
        ensures rest { rows_left result.plan.now result.next ≡ rows_left plan.now 0 }
    {
        Rows {
            plan,
            next: 0,
            live: 0,
        }
    }

    // The rows of the moves of `plan` from move `from` on.
    fn from_move(plan: &'a Plan, from: u64) -> Self
        requires within { from ≤ moves_of plan.now }
        ensures rest { rows_left result.plan.now result.next ≡ rows_left plan.now from }
    {
        Rows {
            plan,
            next: from,
            live: live_before(plan, from),
        }
    }
}

impl Iterator for Rows<'_> {
    type Item = Row;

    ghost next_gives = { YieldsFirst (λ s. rows_left s.plan.now s.next) };

    ghost remaining = { item_count (λ s. rows_left s.plan.now s.next) };

    fn next(&mut self) -> Option<Row> {
        let made = self.plan.move_at(self.next).ok()?;
        let slot = self.plan.slot(made.segment + 1).unwrap();
        self.next += 1;
        self.live = counted(made.change, self.live);
        Some(Row {
            made,
            slot,
            live: self.live,
        })
    }
}

// How many checkpoints are live before move `from`: one at the end, and from there back over each move.
fn live_before(plan: &Plan, from: u64) -> u32
    requires within { from ≤ moves_of plan.now }
    ensures value { result ≡ live_of plan.now from }
{
    let mut live = 1;
    for t in (from..plan.moves()).rev() {
        let made = plan.move_at(t).unwrap();
        live = counted(made.change.opposite(), live);
    }
    live
}

// The live count after a change, from the one before it.
fn counted(change: Change, live: u32) -> u32
    requires room { live < 2 ^ 31 }
    requires some { change ≡ Remove → 0 < live }
    ensures value { result ≡ counted_on change live }
{
    match change {
        Change::Place => live + 1,
        Change::Remove => live - 1,
    }
}
