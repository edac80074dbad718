// A card: pages of 512 bytes, and power that lasts so many writes.
ghost use Rattle.std.specs.Prelude.{◌≡◌, true, false, length, replicate, IfOk, MatchOption, ◌==◌};
ghost use Rattle.stores.specs.Cards.{medium, zero_page, off_medium, blank_medium};

mod looking;
mod writing;

use super::tear::Tear;
use model::Answer;
use std::alloc::{AllocError, Global};

pub type Page = [u8; 512];

// Bytes as a page, if there are as many as a page has.
pub fn as_page(bytes: &[u8]) -> Option<&Page>
    ensures { MatchOption result ((length bytes.now == 512) ≡ false) (λ p. (p.now ≡ bytes.now) × ((length bytes.now == 512) ≡ true)) }
{
    <&Page>::try_from(bytes).ok()
}

// A card that a store cannot be made on, given back as it came: the caller has the card again with the answer, so the
// error is both.
#[derive(Drop)]
pub struct Unfit {
    pub answer: Answer,
    pub card: Card,
}

// What power was, `left`, `tear` and `junk`, stays with a card that is off, as `failed` defines it: so they are no Option.
#[derive(Drop)]
pub struct Card {
    pages: Vec<Page>,
    junk: Page,
    left: u32,
    tear: Tear,
    on: bool,
    node: u8,
}

impl Card {
    // A card with these pages, in a node of this number. It is off until it is restarted.
    pub fn new(node: u8, pages: Vec<Page>) -> Card
        ensures { medium result ≡ off_medium node pages.items }
    {
        Card {
            pages,
            junk: [0; 512],
            left: 0,
            tear: Tear::Old,
            on: false,
            node,
        }
    }

    // A card of so many zero pages: all the memory that it will ever want.
    pub fn blank(heap: Global, node: u8, count: u8) -> Result<Card, AllocError>
        ensures { IfOk result (λ card. medium card ≡ blank_medium node count) }
    {
        let count = usize::from(count);
        let mut pages = Vec::with_capacity(heap, count)?;
        pages.resize(count, [0; 512])?;
        Ok(Card::new(node, pages))
    }

    // The card with every byte zero, and off as a new one is.
    pub fn wiped(self) -> Card
        ensures { medium result ≡ blank_medium (medium self).node (length (medium self).pages) }
    {
        let Card {
            mut pages,
            node,
            ..
        } = self;
        pages.fill([0; 512]);
        Card::new(node, pages)
    }
}
