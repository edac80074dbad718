// How long a question, an add and a drop take, for every kind of name set, with 0, 640 and 1,280 names in it.
//
// Run by hand with the word `times` it prints nanoseconds. Without it, it prints only what the sets answered, which is
// the same on every machine.
#![tactic(auto)]

use bloom::Bloom;
use hashed_names::HashedNames;
use model::Name;
use names::{NameSet, Taken};
use sorted_names::SortedNames;
use std::env;
use std::time::Instant;

const ROUNDS: u32 = 500;

const BATCH: u32 = 32;

// What was measured: nanoseconds, of how many calls, and how many of them said yes or done.
#[derive(Clone, Copy)]
struct Measured {
    nanos: u128,
    calls: u32,
    hits: u32,
}

// The i-th name: guides hand in records with rising serials, second by second, at one stop after the other.
fn taken(i: u32) -> Taken {
    Taken {
        stop: (i % 32) as u16,
        name: Name {
            sender: (i % 50) as u16,
            serial: i,
            time: i / 4,
        },
    }
}

fn fill<N: NameSet>(set: &mut N, count: u32) {
    set.clear();
    for i in 0..count {
        let _ = set.add(taken(i));
    }
}

// The three measures differ in when they fill the set, in what they time and in what they count after it; one function
// over closures for all three would share no more than the clock.

// Questions after the first `count` names, all in the set, and after as many that are not.
fn measure_has<N: NameSet>(
    rt: &HostRuntime,
    set: &mut N,
    count: u32,
    first: u32,
) -> anyhow::Result<Measured> {
    fill(set, count);
    let mut hits = 0u32;
    let start = Instant::now(rt)?;
    for _ in 0..ROUNDS {
        for k in 0..1280u32 {
            let i = first.wrapping_add(k % count.max(1));
            hits = hits.saturating_add(u32::from(set.has(taken(i))));
        }
    }
    let nanos = start.elapsed(rt)?.as_nanos();
    Ok(Measured {
        nanos,
        calls: ROUNDS * 1280,
        hits,
    })
}

// Adds of a batch of new names to a set that has `count` of them.
fn measure_add<N: NameSet>(rt: &HostRuntime, set: &mut N, count: u32) -> anyhow::Result<Measured> {
    let mut hits = 0u32;
    let mut nanos = 0u128;
    for _ in 0..ROUNDS {
        fill(set, count);
        let start = Instant::now(rt)?;
        for k in 0..BATCH {
            let i = count.wrapping_add(k);
            let answer = u8::from(set.add(taken(i)));
            hits = hits.saturating_add(u32::from(answer == 0));
        }
        nanos = nanos.saturating_add(start.elapsed(rt)?.as_nanos());
    }
    Ok(Measured {
        nanos,
        calls: ROUNDS * BATCH,
        hits,
    })
}

// Drops, at a floor, from a set that has `count` names; a hit is a drop after which the stop's first name is gone.
fn measure_drop<N: NameSet>(
    rt: &HostRuntime,
    set: &mut N,
    count: u32,
    floor: u32,
) -> anyhow::Result<Measured> {
    let mut hits = 0u32;
    let mut nanos = 0u128;
    for _ in 0..ROUNDS {
        fill(set, count);
        let start = Instant::now(rt)?;
        set.drop_below(taken(0).stop, floor);
        nanos = nanos.saturating_add(start.elapsed(rt)?.as_nanos());
        hits = hits.saturating_add(u32::from(!set.has(taken(0))));
    }
    Ok(Measured {
        nanos,
        calls: ROUNDS,
        hits,
    })
}

fn print(rt: &HostRuntime, times: bool, what: &str, count: u32, m: Measured) -> anyhow::Result<()> {
    if times {
        let tenths = m.nanos.saturating_mul(10) / u128::from(m.calls.max(1));
        let whole = tenths / 10;
        let part = tenths % 10;
        println!(rt; "  {count} names, {what}: {whole}.{part} ns")?;
    } else {
        let calls = m.calls;
        let hits = m.hits;
        println!(rt; "  {count} names, {what}: {hits} of {calls}")?;
    }
    Ok(())
}

fn measure<N: NameSet>(
    rt: &HostRuntime,
    times: bool,
    kind: &str,
    set: &mut N,
) -> anyhow::Result<()> {
    println!(rt; "{kind}")?;
    for count in [0u32, 640, 1280] {
        let there = measure_has(rt, set, count, 0)?;
        print(rt, times, "a question, there", count, there)?;
        let absent = measure_has(rt, set, count, 100_000)?;
        print(rt, times, "a question, not there", count, absent)?;
        let before = count.saturating_sub(BATCH);
        let added = measure_add(rt, set, before)?;
        print(rt, times, "an add", count, added)?;
        let idle = measure_drop(rt, set, count, 0)?;
        print(rt, times, "a drop of none", count, idle)?;
        let dropped = measure_drop(rt, set, count, u32::MAX)?;
        print(rt, times, "a drop of a stop's names", count, dropped)?;
    }
    Ok(())
}

fn run(rt: &HostRuntime) -> anyhow::Result<()> {
    let times = env::args(rt)?.count() > 1;
    let heap = rt.alloc();
    measure(rt, times, "sorted table", &mut SortedNames::new(heap)?)?;
    measure(rt, times, "hash table", &mut HashedNames::new(heap)?)?;
    let sorted = SortedNames::new(heap)?;
    measure(
        rt,
        times,
        "layer over the sorted table",
        &mut Bloom::new(heap, sorted)?,
    )?;
    let hashed = HashedNames::new(heap)?;
    measure(
        rt,
        times,
        "layer over the hash table",
        &mut Bloom::new(heap, hashed)?,
    )
}

fn main(rt: HostRuntime) -> anyhow::Result<()> {
    run(&rt)
}
