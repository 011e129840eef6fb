//! The text that the program prints. Memory is handed on from function to function, as in all code that allocates.
ghost use Rattle.std.specs.Prelude.{◌≡◌, IfOk, string_bytes};
ghost use Rattle.sizing.specs.Texts.{lines_of, table_text, report_text, Replied, Answered};

use crate::head::Head;
use crate::table::{Row, back, front};
use crate::words::Sizes;
use schedule::Plan;
use std::alloc::{AllocError, Global};

/// What the program prints on the input line `line`.
pub fn answer(heap: Global, line: &str) -> Result<String, AllocError>
    ensures bytes { IfOk result (λ text. Answered line.now (string_bytes text)) }
{
    match line.parse::<Sizes>() {
        Ok(sizes) => reply(heap, sizes),
        Err(error) => format!(in heap; "{error}\n"),
    }
}

/// The report on a run of the sizes asked for, or the line of the refusal.
pub fn reply(heap: Global, sizes: Sizes) -> Result<String, AllocError>
    ensures bytes { IfOk result (λ text. Replied sizes (string_bytes text)) }
{
    match Plan::new(sizes.into()) {
        Ok(plan) => report(heap, &plan),
        Err(refusal) => format!(in heap; "{refusal}\n"),
    }
}

/// The report on a run of `plan`: its sizes, its moves and the most slots that are ever in use.
#[tactic(auto, unfolding(crate::specs::Texts::report_text))]
pub fn report(heap: Global, plan: &Plan) -> Result<String, AllocError>
    ensures bytes { IfOk result (λ text. string_bytes text ≡ report_text plan.now) }
{
    let head = Head::from(plan);
    let table = table_text(heap, plan)?;
    let peak = plan.slots();
    format!(in heap; "{head}\n{table}peak {peak}\n")
}

// The lines of the moves: of all, or of the first and the last 20 where there are more than 40.
#[tactic(auto, using(crate::proofs::Lines::many_lines), unfolding(crate::specs::Texts::table_text))]
fn table_text(heap: Global, plan: &Plan) -> Result<String, AllocError>
    ensures bytes { IfOk result (λ text. string_bytes text ≡ table_text plan.now) }
{
    if plan.moves() <= 40 {
        return lines(heap, &front(heap, plan, 40)?);
    }
    let first = lines(heap, &front(heap, plan, 20)?)?;
    let last = lines(heap, &back(heap, plan, 20)?)?;
    let more = plan.moves() - 40;
    format!(in heap; "{first}.. {more} more ..\n{last}")
}

// A line for each row.
#[tactic(auto, using(crate::proofs::Lines::lines_more), unfolding(crate::specs::Texts::lines_of))]
fn lines(heap: Global, rows: &[Row]) -> Result<String, AllocError>
    ensures bytes { IfOk result (λ text. string_bytes text ≡ lines_of rows.now) }
{
    let mut text = String::new(heap);
    for row in rows {
        writeln!(text, "{row}")?;
    }
    Ok(text)
}
