//! Steps of the rewriting machine, forward and back.
use crate::timing::shortest;
use machine::Record;
use rewriting::{RewritingRecord, RewritingTableau, Rule, Side, step, unstep};

// How often a text of 24 bytes is sorted, and how many steps that takes each time.
const SORTS: u32 = 4_000;

const STEPS: usize = 144;

pub(crate) fn time_texts(rt: &HostRuntime) -> anyhow::Result<()> {
    let left = Side::try_from(b"ba".as_slice())?;
    let right = Side::try_from(b"ab".as_slice())?;
    let text = RewritingTableau::try_from(b"bbbbbbbbbbbbaaaaaaaaaaaa".as_slice())?;
    let rules = [Rule {
        last: false,
        left,
        right,
    }];
    let (both, sum) = shortest(rt, || sorts(&rules, text))?;
    let calls = 2 * u64::from(SORTS) * STEPS as u64;
    println!(rt; "rewriting steps {calls} sum {sum}")?;
    eprintln!(rt; "rewriting_step_or_unstep {calls} {both}")?;
    Ok(())
}

// Sorts the text and takes it back, again and again.
fn sorts(rules: &[Rule], text: RewritingTableau) -> u32 {
    let mut work = text;
    let mut sum = 0u32;
    for _ in 0..SORTS {
        sum = sum.wrapping_add(sort_and_back(rules, &mut work));
    }
    sum.wrapping_add(u32::from(work.text[0]))
}

fn sort_and_back(rules: &[Rule], work: &mut RewritingTableau) -> u32 {
    let mut noted = [RewritingRecord::blank(); STEPS];
    let mut sum = 0u32;
    for record in noted.iter_mut() {
        *record = step(rules, work);
        sum = sum.wrapping_mul(3).wrapping_add(u32::from(record.place));
    }
    sum = sum.wrapping_add(u32::from(work.text[0]));
    for record in noted.iter().rev() {
        unstep(rules, work, *record);
    }
    sum
}
