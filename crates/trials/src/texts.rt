//! Steps of the rewriting machine, and their undoing.
use machine::Tableau;
use rewriting::{RewritingRecord, RewritingTableau, Rule, TooLong, is_halted, step, unstep};
use std::process::Abort;
use std::test::Fail;

// The side, or the tableau, that `text` makes.
fn made<'a, T: TryFrom<&'a [u8], Error = TooLong>>(text: &'a [u8]) -> Result<T, Fail> {
    Ok(T::try_from(text)?)
}

fn record(code: u8, place: u8) -> RewritingRecord {
    RewritingRecord { code, place }
}

// One step from `before` leads to `after` and notes `noted`; undoing it leads back.
fn one_step(
    rt: &impl Abort,
    rules: &[Rule],
    before: RewritingTableau,
    after: RewritingTableau,
    noted: RewritingRecord,
) {
    let mut work = before;
    assert_eq!(rt; step(rules, &mut work), noted);
    assert_eq!(rt; work, after);
    unstep(rules, &mut work, noted);
    assert_eq!(rt; work, before);
}

#[test]
fn a_text_is_shortened_from_the_left(rt: HostRuntime) -> Result<(), Fail> {
    let rules = [Rule {
        last: false,
        left: made(b"ab")?,
        right: made(b"b")?,
    }];
    one_step(&rt, &rules, made(b"aab")?, made(b"ab")?, record(1, 1));
    one_step(&rt, &rules, made(b"ab")?, made(b"b")?, record(1, 0));
    one_step(&rt, &rules, made(b"b")?, made(b"b")?, record(0, 0));
    assert!(rt; is_halted(&rules, &made(b"b")?));
    Ok(())
}

// The mark and the length after one step, its record, and that undoing it leads back.
fn marked_by(rt: &impl Abort, rules: &[Rule], before: RewritingTableau) -> [u8; 4] {
    let mut work = before;
    let noted = step(rules, &mut work);
    let marked = [work.mark, work.length, noted.code, noted.place];
    unstep(rules, &mut work, noted);
    assert_eq!(rt; work, before);
    marked
}

#[test]
fn a_text_that_would_pass_its_room_is_marked(rt: HostRuntime) -> Result<(), Fail> {
    let rules = [Rule {
        last: true,
        left: made(b"")?,
        right: made(b"x")?,
    }];
    assert_eq!(rt; marked_by(&rt, &rules, made(&[b'y'; 48])?), [2, 48, 33, 0]);
    assert_eq!(rt; marked_by(&rt, &rules, made(&[b'y'; 47])?), [1, 48, 1, 0]);
    Ok(())
}

#[test]
fn a_text_past_forty_eight_bytes_has_no_tableau(rt: HostRuntime) {
    assert_eq!(rt;
        RewritingTableau::try_from([b'y'; 49].as_slice()),
        Err(TooLong)
    );
}

#[test]
fn an_ill_shaped_tableau_stays(rt: HostRuntime) -> Result<(), Fail> {
    let rules = [Rule {
        last: false,
        left: made(b"")?,
        right: made(b"")?,
    }];
    let mut ill: RewritingTableau = made(b"ab")?;
    ill.minus(&made(b"abc")?);
    one_step(&rt, &rules, ill, ill, record(0, 0));
    let mut work = ill;
    unstep(&rules, &mut work, record(1, 0));
    assert_eq!(rt; work, ill);
    Ok(())
}
