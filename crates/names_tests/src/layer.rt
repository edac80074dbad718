// The Bloom layer's bits and its count.
use bloom::{Bloom, bits_of};
use model::Name;
use names::{NameSet, Taken};
use sorted_names::SortedNames;
use std::test::Fail;

// Sender 7, serial 1, time 30 at a stop.
fn at(stop: u16) -> Taken {
    Taken {
        stop,
        name: Name {
            sender: 7,
            serial: 1,
            time: 30,
        },
    }
}

// Zeros: a is 0, b is 1, so the bits are 0, 1, 2, 3.
//
// Sender 7, serial 1, time 30 at stop 3: a is 2,654,435,761 + 30 × 40,503 + 7 × 32 + 3 = 2,655,651,078, in
// hexadecimal 9e4a_0506. Rotated by 16 it is 0506_9e4a, so b is 0506_9e4b, 7,755 modulo 16,384. a is 1,286 modulo
// 16,384, and then come 1,286 + 7,755 = 9,041, 9,041 + 7,755 - 16,384 = 412 and 412 + 7,755 = 8,167.
//
// Sender 1, serial 2, time 60 at stop 5: a is 2 × 2,654,435,761 + 60 × 40,503 + 32 + 5 = 5,311,301,739, less 2³² it is
// 1,016,334,443, in hexadecimal 3c94_086b. b is 086b_3c95, 15,509 modulo 16,384, so each bit is 875 below the one
// before, modulo 16,384: 2,155, 1,280, 405, 15,914.
#[test]
fn four_bits_by_hand(rt: HostRuntime) {
    let zeros = Name {
        sender: 0,
        serial: 0,
        time: 0,
    };
    assert_eq!(rt;
        bits_of(Taken {
            stop: 0,
            name: zeros
        }),
        [0, 1, 2, 3]
    );
    assert_eq!(rt; bits_of(at(3)), [1286, 9041, 412, 8167]);
    let wraps = Name {
        sender: 1,
        serial: 2,
        time: 60,
    };
    assert_eq!(rt;
        bits_of(Taken {
            stop: 5,
            name: wraps
        }),
        [2155, 1280, 405, 15914]
    );
}

// Only questions whose four bits are set are passed below and counted, whatever the answer is.
#[test]
fn counts_questions_passed_below(rt: HostRuntime) -> Result<(), Fail> {
    let mut set = Bloom::new(rt.alloc(), SortedNames::new(rt.alloc())?)?;
    assert_eq!(rt; set.asked(), 0);
    assert!(rt; !set.has(at(3)));
    assert!(rt; !set.may_have(at(3)));
    assert_eq!(rt; set.asked(), 0, "told from the bits alone");
    assert_eq!(rt; u8::from(set.add(at(3))), 0);
    assert_eq!(rt; set.asked(), 0, "an add is no question");
    assert!(rt; set.has(at(3)));
    assert_eq!(rt; set.asked(), 1);
    assert!(rt; !set.has(at(4)));
    assert_eq!(rt; set.asked(), 1, "another stop has other bits");
    set.drop_below(3, 31);
    assert!(rt; set.may_have(at(3)), "a drop clears no bit");
    assert!(rt; !set.has(at(3)));
    assert_eq!(rt; set.asked(), 2, "passed below, and not there");
    set.clear();
    assert!(rt; !set.may_have(at(3)), "a clear clears all bits");
    assert!(rt; !set.has(at(3)));
    assert_eq!(rt; set.asked(), 2, "and keeps the count");
    Ok(())
}

// A set that held something is cleared as the layer is made.
#[test]
fn clears_the_set_below(rt: HostRuntime) -> Result<(), Fail> {
    let mut below = SortedNames::new(rt.alloc())?;
    assert_eq!(rt; u8::from(below.add(at(3))), 0);
    let mut set = Bloom::new(rt.alloc(), below)?;
    assert!(rt; !set.has(at(3)));
    assert_eq!(rt; u8::from(set.add(at(3))), 0);
    Ok(())
}
