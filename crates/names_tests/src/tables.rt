// What every kind of name set does, whichever it is.
use bloom::Bloom;
use hashed_names::HashedNames;
use model::Name;
use names::{NameSet, Taken};
use sorted_names::SortedNames;
use std::test::Fail;

fn taken(stop: u16, serial: u32, time: u32) -> Taken {
    Taken {
        stop,
        name: Name {
            sender: 7,
            serial,
            time,
        },
    }
}

fn check(holds: bool, what: &str) -> Result<(), Fail> {
    if holds { Ok(()) } else { Err(Fail::new(what)) }
}

// Adds a name, which answers this number.
fn adds<N: NameSet>(set: &mut N, taken: Taken, number: u8) -> Result<(), Fail> {
    check(
        u8::from(set.add(taken)) == number,
        "an add has another answer",
    )
}

// The stop of the i-th name: 40 names for each of 32 stops.
fn stop_of(i: u32) -> u16 {
    (i % 32) as u16
}

// 1,280 names go in, the next one is refused, and all of them are found.
fn fills_up<N: NameSet>(set: &mut N) -> Result<(), Fail> {
    for i in 0..1280u32 {
        adds(set, taken(stop_of(i), i, 60), 0)?;
    }
    adds(set, taken(3, 5000, 60), 7)?;
    check(
        u8::from(set.add(taken(0, 0, 60))) == 4,
        "a name that is there is seen, not refused",
    )?;
    check(
        !set.has(taken(3, 5000, 60)),
        "what was refused is not there",
    )?;
    for i in 0..1280u32 {
        check(set.has(taken(stop_of(i), i, 60)), "it is not there")?;
        check(!set.has(taken(stop_of(i), i, 61)), "it is there")?;
    }
    set.drop_below(5, 61);
    check(
        u8::from(set.add(taken(3, 5000, 60))) == 0,
        "what was dropped left room",
    )
}

// A name below the floor is gone, one at the floor stays, and so does another stop's.
fn drops_below_the_floor<N: NameSet>(set: &mut N) -> Result<(), Fail> {
    adds(set, taken(4, 1, 119), 0)?;
    adds(set, taken(4, 2, 120), 0)?;
    adds(set, taken(4, 3, 121), 0)?;
    adds(set, taken(5, 1, 119), 0)?;
    set.drop_below(4, 120);
    check(!set.has(taken(4, 1, 119)), "below the floor")?;
    check(set.has(taken(4, 2, 120)), "at the floor")?;
    check(set.has(taken(4, 3, 121)), "above the floor")?;
    check(set.has(taken(5, 1, 119)), "another stop's")?;
    check(
        u8::from(set.add(taken(4, 1, 119))) == 0,
        "what is gone can come again",
    )
}

// Names that differ in one part alone are different names.
fn tells_names_apart<N: NameSet>(set: &mut N) -> Result<(), Fail> {
    adds(set, taken(1, 9, 30), 0)?;
    adds(set, taken(1, 9, 30), 4)?;
    check(!set.has(taken(1, 9, 31)), "another time")?;
    check(!set.has(taken(1, 8, 30)), "another serial")?;
    check(!set.has(taken(2, 9, 30)), "another stop")?;
    let mut other = taken(1, 9, 30);
    other.name.sender = 8;
    check(!set.has(other), "another sender")?;
    set.clear();
    check(!set.has(taken(1, 9, 30)), "nothing is left after a clear")?;
    adds(set, taken(1, 9, 30), 0)
}

fn all_stories<N: NameSet>(set: &mut N) -> Result<(), Fail> {
    tells_names_apart(set)?;
    set.clear();
    drops_below_the_floor(set)?;
    set.clear();
    fills_up(set)
}

#[test]
fn sorted_table(rt: HostRuntime) -> Result<(), Fail> {
    let mut set = SortedNames::new(rt.alloc())?;
    all_stories(&mut set)
}

#[test]
fn hash_table(rt: HostRuntime) -> Result<(), Fail> {
    let mut set = HashedNames::new(rt.alloc())?;
    all_stories(&mut set)
}

#[test]
fn layer_over_the_sorted_table(rt: HostRuntime) -> Result<(), Fail> {
    let mut set = Bloom::new(rt.alloc(), SortedNames::new(rt.alloc())?)?;
    all_stories(&mut set)
}

#[test]
fn layer_over_the_hash_table(rt: HostRuntime) -> Result<(), Fail> {
    let mut set = Bloom::new(rt.alloc(), HashedNames::new(rt.alloc())?)?;
    all_stories(&mut set)
}
