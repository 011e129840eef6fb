//! The moves and slots of small schedules, one by one.
use crate::sizes::planned;
use refusal::{Fault, Refusal};
use schedule::{Change, Move, Plan};
use std::process::Abort;
use std::test::Fail;

const NOTHING: Move = Move {
    change: Change::Place,
    segment: 99,
};

#[test]
fn the_nine_moves_of_fan_out_two_and_depth_two(rt: HostRuntime) -> Result<(), Fail> {
    let plan = planned(2, 2, 3)?;
    let mut list = [NOTHING; 10];
    plan.list(&mut list)?;
    let expected = [
        (Change::Place, 0, 1),
        (Change::Place, 1, 2),
        (Change::Remove, 0, 1),
        (Change::Place, 2, 1),
        (Change::Place, 3, 0),
        (Change::Remove, 2, 1),
        (Change::Place, 0, 1),
        (Change::Remove, 1, 2),
        (Change::Remove, 0, 1),
    ];
    for ((change, segment, slot), made) in expected.into_iter().zip(list) {
        assert_eq!(rt; made, Move { change, segment });
        assert_eq!(rt; plan.slot(segment.saturating_add(1)), Some(slot));
    }
    assert_eq!(rt; list[9], NOTHING);
    Ok(())
}

#[test]
fn a_short_list_is_refused_and_left(rt: HostRuntime) -> Result<(), Fail> {
    let plan = planned(2, 2, 3)?;
    let mut list = [NOTHING; 8];
    assert_eq!(rt; plan.list(&mut list), Err(Refusal::new(Fault::Room, 0)));
    assert_eq!(rt; list, [NOTHING; 8]);
    Ok(())
}

#[test]
fn depth_zero_is_one_placing_in_slot_zero(rt: HostRuntime) -> Result<(), Fail> {
    let plan = planned(2, 0, 1)?;
    assert_eq!(rt;
        [plan.move_at(0), plan.move_at(1)],
        [
            Ok(Move {
                change: Change::Place,
                segment: 0,
            }),
            Err(Refusal::new(Fault::End, 0)),
        ]
    );
    assert_eq!(rt;
        [plan.slot(0), plan.slot(1), plan.slot(2)],
        [None, Some(0), None]
    );
    Ok(())
}

// Plays the whole list on a shelf of flags, and answers the highest number of slots in use.
fn peak(rt: &impl Abort, plan: &Plan, list: &[Move]) -> Result<u32, Fail> {
    let mut busy: u64 = 0;
    let mut peak = 0;
    for (t, made) in list.iter().enumerate() {
        assert_eq!(rt; plan.move_at(t as u64), Ok(*made));
        let slot = plan.slot(made.segment.saturating_add(1)).ok_or("no slot")?;
        assert!(rt; slot < 64);
        let flag = 1 << slot;
        assert_eq!(rt; busy & flag == 0, made.change == Change::Place);
        busy ^= flag;
        peak = peak.max(busy.count_ones());
    }
    assert_eq!(rt; busy, 1);
    Ok(peak)
}

#[test]
fn list_and_move_agree_and_fill_the_shelf_once(rt: HostRuntime) -> Result<(), Fail> {
    for fan_out in 2..9 {
        for depth in 0..4 {
            let plan = planned(fan_out, depth, 1)?;
            let mut list = vec![in rt.alloc(); NOTHING; plan.moves() as usize]?;
            plan.list(&mut list)?;
            assert_eq!(rt; peak(&rt, &plan, &list)?, plan.slots());
        }
    }
    Ok(())
}
