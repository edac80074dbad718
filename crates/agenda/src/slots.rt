// The slots of all stops: with nothing in them, and where a stop's is.
ghost use Rattle.std.specs.Prelude.{◌≡◌, ℕ, ◌<◌, map, length, MatchOption, ◌≢◌, slice_index_or};
ghost use Rattle.std.specs.List.{range_with_len};
ghost use Rattle.model.specs.Limits.{stops};
ghost use Rattle.agenda.specs.Slots.{empty_slot};
ghost use Rattle.agenda.specs.declared.slot.Slot.{Slot as SlotOf};

use crate::slot::Slot;

// A slot for each stop, with nothing in it.
pub(crate) fn empty<V: Copy>() -> [Slot<V>; 32]
    ensures { result ≡ map empty_slot (range_with_len 0 stops) }
{
    std::array::from_fn(|i| Slot {
        value: None,
        stop: i as u16,
    })
}

// Where a stop's slot is; there are so few that a look at each is quick.
pub(crate) fn place_of<V>(slots: &[Slot<V>], stop: u16) -> Option<usize>
    ensures { MatchOption result ((k : ℕ) (d : SlotOf V) → k < length slots.now → (slice_index_or slots.now k d).stop ≢ stop) (λ i. (i < length slots.now) × ((d : SlotOf V) → (slice_index_or slots.now i d).stop ≡ stop)) }
{
    slots.iter().position(|slot| slot.stop == stop)
}
