// Writes to a card, done or cut, and its restart.
ghost use Rattle.std.specs.Prelude.{◌≡◌, ◌<◌, length};
ghost use Rattle.stores.specs.Cards.{medium, turned_on, failed, written, write_answer, written_both, write_both_answer};
ghost use Rattle.stores.specs.Tears.{tear_number};

use super::{Card, Page};
use crate::supply::Charge;
use crate::tear::Tear;
use model::{Answer, CutPoint};

impl Card {
    // Power fails at a write: the page is what the tear makes of it, and the card is off.
    fn fail(&mut self, page: u8, bytes: &Page)
        requires { page < length (medium self.old).pages }
        ensures { medium self.new ≡ failed (medium self.old) page bytes.now }
    {
        let at = usize::from(page);
        self.on = false;
        match self.tear {
            Tear::Old => {}
            Tear::New => self.pages[at] = *bytes,
            Tear::Junk => {
                if page != 0 {
                    self.pages[at] = self.junk;
                }
            }
        }
    }

    // Writes a page on behalf of a row, which the answer names if power fails here. That the node stays follows from what
    // the card is after it; said beside it, it spares each caller's proof the cases of that.
    pub fn write(&mut self, row: u8, page: u8, bytes: &Page) -> Answer
        ensures answer { result ≡ write_answer (medium self.old) row page }
        ensures card { medium self.new ≡ written (medium self.old) page bytes.now }
        ensures node_stays { (medium self.new).node ≡ (medium self.old).node }
    {
        let at = usize::from(page);
        if at >= self.pages.len() {
            return Answer::OutOfRange;
        }
        if !self.on {
            return Answer::Off;
        }
        if self.left > 0 {
            self.left -= 1;
            self.pages[at] = *bytes;
            return Answer::Done;
        }
        self.fail(page, bytes);
        Answer::Cut(CutPoint {
            node: self.node,
            row,
            page,
        })
    }

    // Writes one page and then another; where power fails at the first, there is no second write.
    pub fn write_both(
        &mut self,
        row: u8,
        first: u8,
        bytes: &Page,
        second: u8,
        more: &Page,
    ) -> Answer
        ensures answer { result ≡ write_both_answer (medium self.old) row first bytes.now second }
        ensures card { medium self.new ≡ written_both (medium self.old) first bytes.now second more.now }
        ensures node_stays { (medium self.new).node ≡ (medium self.old).node }
    {
        // What is handed on is an answer, done or not: `?` would make a Result of it and an answer of that again.
        match self.write(row, first, bytes) {
            Answer::Done => self.write(row, second, more),
            answer => answer,
        }
    }

    // Turns the card on, with this power.
    pub fn restart(&mut self, charge: Charge<'_>)
        ensures { medium self.new ≡ turned_on (medium self.old) charge.entry.left (tear_number charge.entry.tear) charge.entry.junk.now }
    {
        self.on = true;
        self.left = charge.left;
        self.tear = charge.tear;
        self.junk = *charge.junk;
    }
}
