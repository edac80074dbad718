// What the two boxes are made of. All their memory is had here.
ghost use Rattle.std.specs.Prelude.{IfOk};
ghost use Rattle.stores.specs.Cards.{medium};
ghost use Rattle.boxes.specs.Parts.{JournalReady, ShadowReady};

use bloom::Bloom;
use cache::Cached;
use hashed_names::HashedNames;
use journal::Journal;
use shadow::Shadow;
use sorted_names::SortedNames;
use std::alloc::{AllocError, Global};
use stores::Card;

pub type CollectorStore = Cached<Journal>;

pub type CollectorNames = Bloom<SortedNames>;

#[derive(Drop)]
pub struct Parts {
    pub collector_store: CollectorStore,
    pub collector_names: CollectorNames,
    pub spotter_store: Shadow,
    pub spotter_names: HashedNames,
}

// Two formatted cards, node 0's and node 1's, with their stores, and two name sets.
pub fn new_parts(heap: Global) -> Result<Parts, AllocError>
    ensures collector { IfOk result (λ p. JournalReady (medium p.collector_store.below.card)) }
    ensures spotter { IfOk result (λ p. ShadowReady (medium p.spotter_store.card)) }
{
    let collector_store = Cached::new(Journal::format(Card::blank(heap, 0, 35)?).unwrap());
    let collector_names = Bloom::new(heap, SortedNames::new(heap)?)?;
    let spotter_store = Shadow::format(Card::blank(heap, 1, 67)?).unwrap();
    let spotter_names = HashedNames::new(heap)?;
    Ok(Parts {
        collector_store,
        collector_names,
        spotter_store,
        spotter_names,
    })
}
