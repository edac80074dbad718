// Stories, run through the code that serves every computation.
use computations::{Computation, Conserving, Moment, Totalling, admit, consider, fire_due};
use counter::Counter;
use detector::Detector;
use eager::Eager;
use model::{Answer, Name, Record};
use std::test::Fail;

fn asked(time: u32, amount: u16) -> Record {
    let name = Name {
        sender: 7,
        serial: 1,
        time,
    };
    Record {
        name,
        stop: 3,
        amount,
    }
}

// The bytes after an amount was taken at a time, and what was emitted.
fn taken<C: Computation>(
    row: &[u8; 32],
    w: u32,
    time: u32,
    amount: u16,
) -> Option<([u8; 32], Option<(u32, u16)>)> {
    let moment = Moment {
        on: true,
        w,
        seen: false,
    };
    let (state, emission) = consider::<C>(row, moment, &asked(time, amount)).ok()?;
    Some((C::store(&state), emission))
}

#[test]
fn a_minute_fires_at_its_end(rt: HostRuntime) -> Result<(), Fail> {
    let (row, nothing) = taken::<Counter>(&[0; 32], 0, 30, 12).ok_or("refused")?;
    assert_eq!(rt; nothing, None);
    let (row, nothing) = taken::<Counter>(&row, 0, 59, 30).ok_or("refused")?;
    assert_eq!(rt; nothing, None);
    assert_eq!(rt;
        <Counter as Conserving>::held(&<Counter as Computation>::load(&row)),
        42
    );
    assert!(rt; fire_due::<Counter>(&row, 59).is_none());
    let (after, emission) = fire_due::<Counter>(&row, 60).ok_or("nothing due")?;
    assert_eq!(rt; emission, Some((60, 42)));
    assert_eq!(rt; <Counter as Computation>::mark(&after), 60);
    assert_eq!(rt; <Counter as Conserving>::held(&after), 0);
    Ok(())
}

#[test]
fn a_crowd_is_told_once(rt: HostRuntime) -> Result<(), Fail> {
    let mut row = [0; 32];
    let mut w = 0;
    for (time, amount, told) in [
        (60, 12, Some((60, 12))),
        (120, 5, None),
        (180, 3, None),
        (240, 2, None),
    ] {
        let (after, emission) = taken::<Detector>(&row, w, time, amount).ok_or("refused")?;
        assert_eq!(rt; emission, told);
        row = after;
        w = time;
    }
    let state = <Detector as Computation>::load(&row);
    assert_eq!(rt; state.predicted, 49);
    assert_eq!(rt; <Detector as Totalling>::total(&state), 22);
    Ok(())
}

#[test]
fn an_eager_stop_emits_for_ever(rt: HostRuntime) -> Result<(), Fail> {
    let (row, emission) = taken::<Eager>(&[0; 32], 0, 100, 1).ok_or("refused")?;
    assert_eq!(rt; emission, Some((100, 65_535)));
    let (after, emission) = fire_due::<Eager>(&row, 100).ok_or("nothing due")?;
    assert_eq!(rt; emission, Some((100, 65_535)));
    let row = <Eager as Computation>::store(&after);
    let (_, emission) = fire_due::<Eager>(&row, 100).ok_or("nothing due")?;
    assert_eq!(rt; emission, Some((100, 65_535)));
    Ok(())
}

#[test]
fn the_first_reason_is_the_answer(rt: HostRuntime) {
    let state = <Eager as Computation>::load(&[0; 32]);
    let nowhere = Record {
        stop: 32,
        ..asked(6, 13)
    };
    for (on, w, seen, given, answer) in [
        (false, 7, true, nowhere, Answer::OutOfRange),
        (false, 7, true, asked(6, 13), Answer::Off),
        (true, 7, true, asked(6, 13), Answer::Late),
        (true, 6, true, asked(6, 13), Answer::Seen),
        (true, 6, false, asked(6, 13), Answer::Early),
        (true, 6, false, asked(7, 13), Answer::Over),
        (true, 6, false, asked(7, 12), Answer::Done),
    ] {
        assert_eq!(rt;
            admit::<Eager>(&state, Moment { on, w, seen }, &given),
            answer
        );
    }
}
