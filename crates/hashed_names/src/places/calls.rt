// Searching the places, and taking one.
ghost use Rattle.std.specs.Prelude.{◌≡◌, ◌<◌, replicate, IfOk, Some, None, slice_set};
ghost use Rattle.hashed_names.specs.Probing.{home_of};
ghost use Rattle.hashed_names.specs.Places.{slots_of, Found};

use super::{Places, Spot};
use names::Taken;
use std::alloc::{AllocError, Global};

const PLACES: usize = 2_048;

// Where the search for the name begins.
fn home_of(taken: Taken) -> usize
    ensures { result ≡ home_of taken.stop taken.name }
{
    let mixed = taken.weighed(2_654_435_761, 2_246_822_519, 3_266_489_917, 668_265_263);
    (mixed >> 21) as usize
}

impl Places {
    // All places free.
    pub(crate) fn new(heap: Global) -> Result<Places, AllocError>
        ensures { IfOk result (λ p. slots_of p ≡ replicate 2048 None) }
    {
        let slots = vec![in heap; None; PLACES]?;
        Ok(Places { slots })
    }

    // Searches for the name, from its home on, up to it or to a free place.
    pub(crate) fn find(&self, taken: Taken) -> Spot
        ensures { Found (slots_of self.now) taken.stop taken.name result }
    {
        let home = home_of(taken);
        // No plainer as a chain, which would look at the place where it ends once more.
        for step in 0..PLACES {
            let place = (home + step) % PLACES;
            let Some(other) = self.slots[place] else {
                return Spot::Free(place);
            };
            if other == taken {
                return Spot::Here;
            }
        }
        Spot::Nowhere
    }

    // Takes the place.
    pub(crate) fn put(&mut self, place: usize, taken: Taken)
        requires { place < 2048 }
        ensures { slots_of self.new ≡ slice_set (slots_of self.old) place (Some taken) }
    {
        self.slots[place] = Some(taken);
    }

    // Frees all places.
    pub(crate) fn clear(&mut self)
        ensures { slots_of self.new ≡ replicate 2048 None }
    {
        self.slots.fill(None);
    }
}
