// Leaving names out: what stays is put into other places, so that no search breaks off where a name is gone.
ghost use Rattle.std.specs.Prelude.{◌≡◌, false};
ghost use Rattle.names.specs.Held.{listed};
ghost use Rattle.names.specs.Changes.{without_below};
ghost use Rattle.hashed_names.specs.Probing.{stored};
ghost use Rattle.hashed_names.specs.Places.{slots_of};
ghost use Rattle.hashed_names.specs.Inserting.{Inserted};
ghost use Rattle.hashed_names.specs.Rebuilding.{Rebuilt};

use super::{Places, Spot};
use names::Taken;

impl Places {
    // Puts the name in, unless it is there, and says whether a place was taken, as `HashSet::insert` does.
    fn insert(&mut self, taken: Taken) -> bool
        ensures { Inserted (slots_of self.old) taken result (slots_of self.new) }
    {
        let Spot::Free(place) = self.find(taken) else {
            return false;
        };
        self.put(place, taken);
        true
    }

    // Whether the stop has names below the floor.
    pub(crate) fn has_below(&self, stop: u16, floor: u32) -> bool
        ensures { result ≡ false → listed (stored (slots_of self.now)) ≡ without_below (listed (stored (slots_of self.now))) stop floor }
    {
        self.slots.iter().any(|slot| matches!(slot, Some(taken) if taken.is_below(stop, floor)))
    }

    // Puts all names but the stop's below the floor into other places, which are cleared first, and counts them.
    pub(crate) fn keep_into(&self, other: &mut Places, stop: u16, floor: u32) -> usize
        ensures { Rebuilt (slots_of self.now) stop floor (slots_of other.new) result }
    {
        other.clear();
        // Counted by hand, as only `insert` can say whether a place was taken.
        let mut count = 0;
        for slot in &self.slots {
            let Some(taken) = slot else {
                continue;
            };
            if taken.is_below(stop, floor) {
                continue;
            }
            if other.insert(*taken) {
                count += 1;
            }
        }
        count
    }
}
