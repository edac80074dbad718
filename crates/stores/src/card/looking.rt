// What can be seen of a card.
ghost use Rattle.std.specs.Prelude.{◌≡◌, ◌≤◌, [], length, MatchOption, slice_index_or};
ghost use Rattle.stores.specs.Cards.{medium};

use super::{Card, Page};

impl Card {
    // The node whose card it is.
    pub fn node(&self) -> u8
        ensures { result ≡ (medium self.now).node }
    {
        self.node
    }

    // Whether there is power.
    pub fn is_on(&self) -> bool
        ensures { result ≡ (medium self.now).on }
    {
        self.on
    }

    // How many pages there are.
    pub fn count(&self) -> usize
        ensures { result ≡ length (medium self.now).pages }
    {
        self.pages.len()
    }

    // What a page holds, whether the card is on or off; none where there is no such page.
    pub fn page(&self, page: u8) -> Option<&Page>
        ensures { MatchOption result (length (medium self.now).pages ≤ page) (λ p. p.now ≡ slice_index_or (medium self.now).pages page []) }
    {
        self.pages.get(usize::from(page))
    }
}
