// The calls of the sorted table.
ghost use Rattle.std.specs.Prelude.{◌≡◌, IfOk, refl};
ghost use Rattle.std.proofs.Common.{sym, rules};
ghost use Rattle.names.specs.Changes.{Cleared};
ghost use Rattle.sorted_names.specs.Order.{first_at};
ghost use Rattle.sorted_names.specs.Table.{sorted_meaning};
ghost use Rattle.sorted_names.specs.Apart.{climbs_apart};

use super::SortedNames;
use crate::order::{close_gap, find, place_of};
use model::{Answer, Name};
use names::{NameSet, Taken};
use std::alloc::{AllocError, Global};

const MOST: usize = 1280;

// What stands before all names of the stop with that time, or a later one.
fn first_at(stop: u16, time: u32) -> Taken
    ensures { result ≡ first_at stop time }
{
    Taken {
        stop,
        name: Name {
            sender: 0,
            serial: 0,
            time,
        },
    }
}

impl SortedNames {
    // An empty table, with room for 1,280 names.
    pub fn new(heap: Global) -> Result<SortedNames, AllocError>
        ensures { IfOk result (λ t. Cleared (sorted_meaning t)) }
    {
        let items = Vec::with_capacity(heap, MOST)?;
        Ok(SortedNames { items })
    }
}

impl NameSet for SortedNames {
    ghost meaning = { sorted_meaning };

    ghost counted = { λ t.
        record {
          names = t.items.items;
          apart = climbs_apart t.items.items t.climbs;
          long = sym t.items.ok.0;
          same = λ s n. refl;
        } };

    ghost bounded = { Prim.search rules };

    fn has(&mut self, taken: Taken) -> bool {
        find(&self.items, taken).is_ok()
    }

    fn add(&mut self, taken: Taken) -> Answer {
        let Err(place) = find(&self.items, taken) else {
            return Answer::Seen;
        };
        if self.items.len() == MOST {
            return Answer::Full;
        }
        self.items.insert(place, taken).unwrap();
        Answer::Done
    }

    fn drop_below(&mut self, stop: u16, floor: u32) {
        let from = place_of(&self.items, &first_at(stop, 0));
        let to = place_of(&self.items, &first_at(stop, floor));
        close_gap(&mut self.items, from, to);
    }

    fn clear(&mut self) {
        self.items.clear();
    }
}
