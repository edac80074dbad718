// The calls of the hash table.
ghost use Rattle.std.specs.Prelude.{IfOk, refl};
ghost use Rattle.std.proofs.Common.{rules};
ghost use Rattle.names.specs.Changes.{Cleared};
ghost use Rattle.hashed_names.specs.Apart.{sound_apart, sound_counted};
ghost use Rattle.hashed_names.specs.Probing.{stored};
ghost use Rattle.hashed_names.specs.Places.{slots_of};
ghost use Rattle.hashed_names.specs.Table.{hashed_meaning};

use super::HashedNames;
use crate::places::{Places, Spot};
use model::Answer;
use names::{NameSet, Taken};
use std::alloc::{AllocError, Global};
use std::mem::swap;

const MOST: usize = 1_280;

impl HashedNames {
    // An empty table.
    pub fn new(heap: Global) -> Result<HashedNames, AllocError>
        ensures { IfOk result (λ t. Cleared (hashed_meaning t)) }
    {
        let places = Places::new(heap)?;
        let spare = Places::new(heap)?;
        Ok(HashedNames {
            places,
            spare,
            count: 0,
        })
    }
}

impl NameSet for HashedNames {
    ghost meaning = { hashed_meaning };

    ghost counted = { λ t.
        record {
          names = stored (slots_of t.places);
          apart = sound_apart t.sound;
          long = sound_counted t.sound;
          same = λ s n. refl;
        } };

    ghost bounded = { Prim.search rules };

    fn has(&mut self, taken: Taken) -> bool {
        matches!(self.places.find(taken), Spot::Here)
    }

    fn add(&mut self, taken: Taken) -> Answer {
        match self.places.find(taken) {
            Spot::Here => Answer::Seen,
            Spot::Free(place) if self.count < MOST => {
                self.places.put(place, taken);
                self.count += 1;
                Answer::Done
            }
            _ => Answer::Full,
        }
    }

    fn drop_below(&mut self, stop: u16, floor: u32) {
        if self.places.has_below(stop, floor) {
            self.count = self.places.keep_into(&mut self.spare, stop, floor);
            swap(&mut self.places, &mut self.spare);
        }
    }

    fn clear(&mut self) {
        self.places.clear();
        self.count = 0;
    }
}
