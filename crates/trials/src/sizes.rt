//! Sizes at and beyond their limits.
use refusal::{Fault, Refusal};
use schedule::{Plan, Sizes};
use std::test::Fail;

#[derive(Drop)]
struct Case {
    sizes: Sizes,
    refused: Option<usize>,
}

// The first three sizes in a row, so that the cases read as a table.
const fn judged(sizes: [u32; 3], allowance: u64, refused: Option<usize>) -> Case {
    let [fan_out, depth, steps] = sizes;
    Case {
        sizes: Sizes {
            fan_out,
            depth,
            steps,
            allowance,
        },
        refused,
    }
}

#[test]
fn the_first_wrong_size_is_refused_at_its_place(rt: HostRuntime) {
    let cases = [
        judged([9, 2, 3], 1, Some(0)),
        judged([1, 2, 3], 1, Some(0)),
        judged([8, 9, 3], 1, Some(1)),
        judged([2, 2, 1025], 1, Some(2)),
        judged([2, 2, 0], 1, Some(2)),
        judged([2, 2, 3], 0, Some(4)),
        judged([2, 2, 3], 1_000_000_000_000_001, Some(4)),
        judged([9, 9, 0], 0, Some(0)),
        judged([8, 9, 0], 0, Some(1)),
        judged([8, 8, 0], 0, Some(2)),
        judged([2, 0, 1], 1, None),
        judged([2, 2, 1024], 1, None),
        judged([8, 8, 1024], 1_000_000_000_000_000, None),
    ];
    for Case { sizes, refused } in cases {
        let refusal = refused.map(|place| Refusal::new(Fault::Sizes, place));
        assert_eq!(rt; Plan::new(sizes).err(), refusal);
    }
}

// What a plan tells: segments, moves, last tick, slots, steps of a whole run, overhead.
fn told(plan: &Plan) -> [u64; 6] {
    [
        u64::from(plan.segments()),
        plan.moves(),
        plan.last_tick(),
        u64::from(plan.slots()),
        plan.whole_run_steps(),
        plan.whole_run_overhead(),
    ]
}

// A plan of which nothing is promised here: with the promise of `Plan::new` at numbers, a check of a test would write out
// the whole schedule.
pub(crate) fn planned(fan_out: u32, depth: u32, steps: u32) -> Result<Plan, Refusal> {
    Plan::new(Sizes {
        fan_out,
        depth,
        steps,
        allowance: 1,
    })
}

#[test]
fn the_largest_plan(rt: HostRuntime) -> Result<(), Fail> {
    let plan = planned(8, 8, 1024)?;
    assert_eq!(rt;
        told(&plan),
        [
            16_777_216,
            2_562_890_625,
            10_512_977_343_751,
            57,
            10_497_600_000_000,
            61_104,
        ]
    );
    Ok(())
}

#[test]
fn a_plan_of_one_segment(rt: HostRuntime) -> Result<(), Fail> {
    let plan = planned(5, 0, 7)?;
    assert_eq!(rt; told(&plan), [1, 1, 35, 1, 28, 400]);
    Ok(())
}
