// Heaps against a sorted copy, and who comes first.
use super::random::Random;
use agenda::{Panel, Timers};
use heap::{build, take_least};
use model::Production;
use std::test::Fail;

fn fill(items: &mut [u32], random: &mut Random) {
    for item in items.iter_mut() {
        *item = random.next() % 30;
    }
}

// Whether the heap's elements come out in this order: each that is taken out stands behind those that are left.
fn comes_out_as(items: &mut [u32], sorted: &[u32]) -> bool {
    for last in (0..items.len()).rev() {
        take_least(&mut items[..last + 1]);
    }
    items.reverse();
    *items == *sorted
}

#[test]
fn a_heap_gives_a_sorted_copy(rt: HostRuntime) {
    let mut random = Random::new(2);
    for _ in 0..50 {
        let mut items = [0u32; 40];
        fill(&mut items, &mut random);
        let mut sorted = items;
        sorted.sort_unstable();
        build(&mut items);
        assert!(rt; comes_out_as(&mut items, &sorted));
    }
}

#[test]
fn the_earliest_due_and_the_lowest_stop(rt: HostRuntime) {
    let mut timers = Timers::new();
    assert_eq!(rt; timers.first(), None);
    timers.set(9, Some(120));
    timers.set(4, Some(120));
    timers.set(31, Some(180));
    assert_eq!(rt; timers.first(), Some((4, 120)));
    timers.set(31, Some(60));
    assert_eq!(rt; timers.first(), Some((31, 60)));
    timers.set(31, None);
    timers.set(4, None);
    assert_eq!(rt; timers.first(), Some((9, 120)));
    timers.set(32, Some(1));
    assert_eq!(rt; timers.first(), Some((9, 120)));
}

fn shown(amount: u16) -> Option<Production> {
    Some(Production {
        serial: 1,
        time: 60,
        amount,
    })
}

#[test]
fn the_greatest_amount_and_the_lowest_stop(rt: HostRuntime) -> Result<(), Fail> {
    let mut panel = Panel::new();
    assert!(rt; panel.first().is_none());
    panel.set(7, shown(12));
    panel.set(3, shown(12));
    panel.set(5, shown(11));
    let (stop, production) = panel.first().ok_or("three stops show something")?;
    assert_eq!(rt; stop, 3);
    assert_eq!(rt; production.amount, 12);
    panel.set(5, shown(13));
    let (stop, production) = panel.first().ok_or("three stops show something")?;
    assert_eq!(rt; stop, 5);
    assert_eq!(rt; production.amount, 13);
    panel.set(5, None);
    panel.set(3, shown(1));
    let (stop, _) = panel.first().ok_or("two stops show something")?;
    assert_eq!(rt; stop, 7);
    Ok(())
}
