// A stop's place in a heap of all stops: its value, if it has one.
ghost use Rattle.std.specs.Prelude.{refl};
ghost use Rattle.std.specs.Cmp.{partial_order_from_agreeing_total};
ghost use Rattle.std.specs.Ordering.{as_partial_cmp};
ghost use Rattle.agenda.specs.Orders.{slot_order, slot_total, slot_same};

use std::cmp::Ordering;

#[derive(Clone, Copy, PartialEq, Eq)]
pub struct Slot<V> {
    pub value: Option<V>,
    pub stop: u16,
}

impl<V: Ord> PartialOrd for Slot<V> {
    ghost partial_cmp = { as_partial_cmp (slot_order V.cmp) };

    ghost laws = { partial_order_from_agreeing_total (slot_order V.cmp) (slot_total V.total) (λ _ _. refl) (slot_same V.eq V.cmp V.matches_eq) };

    fn partial_cmp(&self, other: &Slot<V>) -> Option<Ordering> {
        Some(self.cmp(other))
    }
}

// By the value, none behind all, then by the stop. By hand: a derive would put none first, or take each value as
// `Reverse<Option<Reverse<V>>>`, which every use has to wrap and unwrap twice. A stop is looked at only where the values
// are equal.
impl<V: Ord> Ord for Slot<V> {
    ghost cmp = { slot_order V.cmp };

    ghost total = { slot_total V.total };

    ghost matches_partial_cmp = { λ _ _. refl };

    ghost matches_eq = { slot_same V.eq V.cmp V.matches_eq };

    fn cmp(&self, other: &Slot<V>) -> Ordering {
        let by_value = match (&self.value, &other.value) {
            (Some(x), Some(y)) => x.cmp(y),
            (Some(_), None) => Ordering::Less,
            (None, Some(_)) => Ordering::Greater,
            (None, None) => Ordering::Equal,
        };
        by_value.then_with(|| self.stop.cmp(&other.stop))
    }
}
