// A store over another, with copies of up to four rows.
ghost use Rattle.std.specs.Prelude.{◌≡◌, true, false, length};
ghost use Rattle.model.specs.Answers.{refusal};
ghost use Rattle.model.specs.declared.answer.Answer.TheVariants.{Done};
ghost use Rattle.stores.specs.Promises.{Reads, Commits, Restarts};
ghost use Rattle.cache.specs.Copies.{holds, Agrees, Empty};
ghost use Rattle.std.proofs.Common.{rules};

use super::entries::Entries;
use model::Answer;
use stores::{Store, Supply, as_page};

#[derive(Drop)]
pub struct Cached<S: Store> {
    below: S,
    copies: Entries,
    pub ghost agrees: { Agrees (S.model below) copies.places },
}

impl<S: Store> Cached<S> {
    // A cache over a store, with no copies yet.
    pub fn new(below: S) -> Cached<S>
        ensures { result.below ≡ below }
    {
        Cached {
            below,
            copies: Entries::new(),
        }
    }
}

impl<S: Store> Store for Cached<S> {
    ghost model = { λ s. S.Store.model s.below };

    ghost cost = { S.Store.cost };

    ghost turn = { S.Store.turn };

    ghost bound = { S.Store.bound };

    ghost commit_cut = { λ s. S.Store.commit_cut s.below };

    ghost restart_cut = { λ s. S.Store.restart_cut s.below };

    ghost home = { λ s. S.Store.home s.below };

    ghost turn_counts = { Prim.search rules };

    ghost turn_within = { Prim.search rules };

    ghost owes = { Prim.search rules };

    ghost cut_at_home = { Prim.search rules };

    ghost wake_at_home = { Prim.search rules };

    fn node(&self) -> u8 {
        self.below.node()
    }

    fn count(&self) -> usize {
        self.below.count()
    }

    fn is_on(&self) -> bool {
        self.below.is_on()
    }

    fn owed(&self) -> u32 {
        self.below.owed()
    }

    // A row that was just read or committed is at hand, and a row at hand is read without the store below.
    fn read(&mut self, row: usize, out: &mut [u8]) -> Answer
        ensures reads { Reads (S.Store.model self.old.below) (S.Store.model self.new.below) row out.old out.new result }
        ensures cuts_stay { (S.Store.commit_cut self.new.below ≡ S.Store.commit_cut self.old.below) × (S.Store.restart_cut self.new.below ≡ S.Store.restart_cut self.old.below) }
        ensures home_stays { S.Store.home self.new.below ≡ S.Store.home self.old.below }
        ensures refusal_changes_nothing { refusal result ≡ true → self.new ≡ self.old }
        ensures at_hand_is_served { holds self.old.copies.places row ≡ true → length out.old ≡ 512 → self.new.below ≡ self.old.below }
        ensures read_is_at_hand { result ≡ Done → holds self.new.copies.places row ≡ true }
    {
        if out.len() == 512 {
            if let Some(page) = self.copies.find(row) {
                out.copy_from_slice(page);
                return Answer::Done;
            }
        }
        let answer = self.below.read(row, out);
        if let (Answer::Done, Some(page)) = (answer, as_page(out)) {
            self.copies.keep(row, page);
        }
        answer
    }

    fn commit(&mut self, row: usize, bytes: &[u8]) -> Answer
        ensures commits { Commits S.Store.cost S.Store.turn (S.Store.commit_cut self.old.below row) (S.Store.model self.old.below) (S.Store.model self.new.below) row bytes.now result }
        ensures home_stays { S.Store.home self.new.below ≡ S.Store.home self.old.below }
        ensures refusal_changes_nothing { refusal result ≡ true → self.new ≡ self.old }
        ensures committed_is_at_hand { result ≡ Done → holds self.new.copies.places row ≡ true }
    {
        let answer = self.below.commit(row, bytes);
        match (answer, as_page(bytes)) {
            (Answer::Done, Some(page)) => self.copies.keep(row, page),
            (Answer::Cut(_), _) => self.copies.clear(),
            _ => {}
        }
        answer
    }

    fn restart(&mut self, supply: Supply<'_>) -> Answer
        ensures restarts { Restarts (S.Store.restart_cut self.old.below supply.entry.left) (S.Store.model self.old.below) (S.Store.model self.new.below) supply.entry.left supply.entry.tear supply.entry.junk.now result }
        ensures home_stays { S.Store.home self.new.below ≡ S.Store.home self.old.below }
        ensures refusal_changes_nothing { refusal result ≡ true → self.new ≡ self.old }
        ensures emptied { refusal result ≡ false → Empty self.new.copies.places }
    {
        let answer = self.below.restart(supply);
        match answer {
            Answer::Done | Answer::Cut(_) => self.copies.clear(),
            _ => {}
        }
        answer
    }
}
