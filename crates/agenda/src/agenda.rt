// What each stop has to be looked at for.
ghost use Rattle.std.specs.Prelude.{◌≡◌, length};
ghost use Rattle.std.specs.Cmp.{IsTotalOrder};
ghost use Rattle.agenda.specs.Orders.{slot_total};
ghost use Rattle.agenda.specs.Slots.{Placed, Single};

mod methods;

use crate::slot::Slot;

// For each stop a value or none, in a heap with a slot for each.
#[derive(Drop)]
pub struct Agenda<V: Ord> {
    slots: [Slot<V>; 32],
    ghost sized: { length slots ≡ 32 },
    ghost heaped: { (o : IsTotalOrder V.Ord.cmp) → Placed (slot_total o) slots },
    ghost single: { Single slots },
}

// For each stop the second at which it is due, or none.
pub type Timers = Agenda<u32>;
