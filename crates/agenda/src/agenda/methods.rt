// An agenda, by what it holds for each stop.
ghost use Rattle.std.specs.Prelude.{◌≡◌, ℕ, ◌<◌, None};
ghost use Rattle.std.specs.Ordering.{is_lt};
ghost use Rattle.model.specs.FirstBest.{first_best};
ghost use Rattle.model.specs.Limits.{stops};
ghost use Rattle.agenda.specs.Meaning.{due_at, earliest};
ghost use Rattle.agenda.specs.Slots.{changed, held_below};

use super::Agenda;
use crate::slot::Slot;
use crate::slots::{empty, place_of};
use heap::change_at;

impl<V: Ord + Copy> Agenda<V> {
    // No stop has a value.
    pub fn new() -> Agenda<V>
        ensures { (s : ℕ) → held_below result.slots s ≡ None }
    {
        Agenda { slots: empty() }
    }

    // A stop now has this value, or none. A number that is no stop changes nothing.
    pub fn set(&mut self, stop: u16, value: Option<V>)
        ensures { held_below self.new.slots ≡ changed stop value (held_below self.old.slots) }
    {
        if let Some(at) = place_of(&self.slots, stop) {
            change_at(&mut self.slots, at, Slot { value, stop });
        }
    }

    // The stop with the least value, and its value: ties go to the lowest stop.
    pub(crate) fn least(&self) -> Option<(u16, V)>
        ensures { result ≡ first_best (λ x y. is_lt (V.Ord.cmp x y)) (held_below self.now.slots) stops }
    {
        let slot = heap::least(&self.slots)?;
        Some((slot.stop, slot.value?))
    }

    // The value of a stop.
    pub(crate) fn at(&self, stop: u16) -> Option<V>
        ensures { stop < stops → result ≡ held_below self.now.slots stop }
    {
        let at = place_of(&self.slots, stop)?;
        self.slots[at].value
    }
}

impl Agenda<u32> {
    // The stop that is due first, and when: ties go to the lowest stop.
    pub fn first(&self) -> Option<(u16, u32)>
        ensures { result ≡ earliest (due_at self.now) }
    {
        self.least()
    }
}
