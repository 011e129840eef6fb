//! Times the calls that speed matters for. Times go to standard error; standard output has only what was worked out.
#![tactic(auto)]

ghost use Rattle.std.specs.Iterator.{IsFinite};

mod registers;
mod texts;
mod timing;

use crate::registers::time_registers;
use crate::texts::time_texts;
use crate::timing::shortest;
use schedule::{Change, Move, Plan, Sizes};

const NOTHING: Move = Move {
    change: Change::Place,
    segment: 0,
};

fn main(rt: HostRuntime) -> anyhow::Result<()> {
    let plan = Plan::new(Sizes {
        fan_out: 8,
        depth: 6,
        steps: 1,
        allowance: 1,
    })?;
    time_schedule(&rt, &plan)?;
    time_registers(&rt)?;
    time_texts(&rt)
}

fn time_schedule(rt: &HostRuntime, plan: &Plan) -> anyhow::Result<()> {
    let mut list = vec![in rt.alloc(); NOTHING; plan.moves() as usize]?;
    let (written, _) = shortest(rt, || plan.list(&mut list).is_ok())?;
    let (looked_up, sum) = shortest(
        rt,
        || segments((0..plan.moves()).filter_map(|t| plan.move_at(t).ok())),
    )?;
    let moves = plan.moves();
    println!(rt;
        "moves {moves} sum of segments {sum} listed {}",
        segments(list.iter().copied())
    )?;
    eprintln!(rt; "list {moves} {written}")?;
    eprintln!(rt; "move_at {moves} {looked_up}")?;
    Ok(())
}

// The sum of the segments of `moves`.
fn segments<I: Iterator<Item = Move> + Drop>(moves: I) -> u64
    requires ready { I.can_next moves }
    requires finite { IsFinite (I.remaining moves) }
{
    moves.fold(
        0,
        |sum: u64, made| sum.wrapping_add(u64::from(made.segment)),
    )
}
