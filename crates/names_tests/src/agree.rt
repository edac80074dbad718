// The same random operations on every kind of name set give the same answers.
use bloom::Bloom;
use hashed_names::HashedNames;
use model::Name;
use names::{NameSet, Taken};
use sorted_names::SortedNames;
use std::test::Fail;

#[derive(Clone, Copy)]
enum Act {
    Ask(Taken),
    Add(Taken),
    Drop(u16, u32),
    Clear,
}

const YES: u8 = 20;

const NO: u8 = 21;

const SEEN: u8 = 4;

// A shift register of 32 bits, which comes round to its start only after all numbers but 0.
fn shifted(seed: u32) -> u32 {
    let a = seed ^ (seed << 13);
    let b = a ^ (a >> 17);
    b ^ (b << 5)
}

// Few enough names that many come twice: four stops, two senders, sixteen serials, eight times.
fn act_of(draw: u32) -> Act {
    let stop = (draw % 4) as u16;
    let name = Name {
        sender: (draw / 4 % 2) as u16,
        serial: draw / 8 % 16,
        time: draw / 128 % 8,
    };
    match draw / 1024 % 64 {
        0 => Act::Drop(stop, name.time),
        1 if draw / 65536 % 4 == 0 => Act::Clear,
        1..=40 => Act::Add(Taken { stop, name }),
        _ => Act::Ask(Taken { stop, name }),
    }
}

// What the set answers: an add by its number, a question by yes or no.
fn answer_of<N: NameSet>(set: &mut N, act: Act) -> u8 {
    match act {
        Act::Ask(taken) => { if set.has(taken) { YES } else { NO } }
        Act::Add(taken) => u8::from(set.add(taken)),
        Act::Drop(stop, floor) => {
            set.drop_below(stop, floor);
            0
        }
        Act::Clear => {
            set.clear();
            0
        }
    }
}

#[test]
fn all_sets_agree(rt: HostRuntime) -> Result<(), Fail> {
    let mut sorted = SortedNames::new(rt.alloc())?;
    let mut hashed = HashedNames::new(rt.alloc())?;
    let mut over_sorted = Bloom::new(rt.alloc(), SortedNames::new(rt.alloc())?)?;
    let mut over_hashed = Bloom::new(rt.alloc(), HashedNames::new(rt.alloc())?)?;
    let mut seed = 1234567u32;
    let mut yes = 0u32;
    let mut seen = 0u32;
    for _ in 0..800 {
        seed = shifted(seed);
        let act = act_of(seed);
        let answer = answer_of(&mut sorted, act);
        assert_eq!(rt; answer_of(&mut hashed, act), answer);
        assert_eq!(rt; answer_of(&mut over_sorted, act), answer);
        assert_eq!(rt; answer_of(&mut over_hashed, act), answer);
        yes = yes.saturating_add(u32::from(answer == YES));
        seen = seen.saturating_add(u32::from(answer == SEEN));
    }
    assert!(rt; yes > 20, "the questions hit");
    assert!(rt; seen > 20, "names come twice");
    Ok(())
}
