// A store on a card, however its rows lie there.
ghost use Rattle.std.specs.Prelude.{◌≡◌, true, length, MatchResult, ◌≢◌};
ghost use Rattle.model.specs.Answers.{refusal};
ghost use Rattle.model.specs.declared.answer.Answer.TheVariants.{OutOfRange};
ghost use Rattle.stores.specs.Cards.{medium};
ghost use Rattle.stores.specs.Layouts.{Formatted, owed_after_commit, owed_after_restart};
ghost use Rattle.stores.specs.Promises.{Commits, Restarts};
ghost use Rattle.std.proofs.Common.{rules};

use crate::card::{Card, Unfit, as_page};
use crate::layout::Layout;
use crate::store::Store;
use crate::supply::{Charge, Supply};
use model::Answer;
use std::marker::PhantomData;

#[derive(Drop)]
pub struct OnCard<L: Layout> {
    card: Card,
    layout: PhantomData<L>,
    pub ghost sound: { ∥ L.sound (medium card) ∥₁ },
}

impl<L: Layout> OnCard<L> {
    // Makes a new store of a card, every byte zero; a card of another size comes back as it was.
    pub fn format(card: Card) -> Result<OnCard<L>, Unfit>
        ensures { MatchResult result (λ s. (length (medium card).pages ≡ L.Layout.PAGES) × Formatted L.Layout.meaning L.Layout.sound L.Layout.ROWS L.Layout.PAGES (medium card).node (medium s.card)) (λ e. (length (medium card).pages ≢ L.Layout.PAGES) × (e.answer ≡ OutOfRange) × (e.card ≡ card)) }
    {
        if card.count() != L::PAGES {
            let answer = Answer::OutOfRange;
            return Err(Unfit { answer, card });
        }
        Ok(OnCard {
            card: card.wiped(),
            layout: PhantomData,
        })
    }
}

impl<L: Layout> Store for OnCard<L> {
    ghost model = { λ s. L.Layout.meaning (medium s.card) };

    ghost cost = { L.Layout.cost };

    ghost turn = { L.Layout.turn };

    ghost bound = { L.Layout.bound };

    ghost commit_cut = { λ s. L.Layout.commit_cut (medium s.card) };

    ghost restart_cut = { λ s. L.Layout.restart_cut (medium s.card) };

    ghost home = { λ s. (medium s.card).node };

    ghost turn_counts = { Prim.search rules };

    ghost turn_within = { Prim.search rules };

    ghost owes = { Prim.search rules };

    ghost cut_at_home = { Prim.search rules };

    ghost wake_at_home = { Prim.search rules };

    fn node(&self) -> u8 {
        self.card.node()
    }

    fn count(&self) -> usize {
        L::ROWS
    }

    fn is_on(&self) -> bool {
        self.card.is_on()
    }

    fn owed(&self) -> u32 {
        L::owed(&self.card)
    }

    fn read(&mut self, row: usize, out: &mut [u8]) -> Answer {
        if row >= L::ROWS || out.len() != 512 {
            return Answer::OutOfRange;
        }
        if !self.is_on() {
            return Answer::Off;
        }
        let Some(page) = L::row(&self.card, row as u8) else {
            return Answer::OutOfRange;
        };
        out.copy_from_slice(page);
        Answer::Done
    }

    fn commit(&mut self, row: usize, bytes: &[u8]) -> Answer
        ensures commits { Commits L.Layout.cost L.Layout.turn (L.Layout.commit_cut (medium self.old.card) row) (L.Layout.meaning (medium self.old.card)) (L.Layout.meaning (medium self.new.card)) row bytes.now result }
        ensures owes { (L.Layout.meaning (medium self.new.card)).power.owed ≡ owed_after_commit (L.Layout.owed_committed (L.Layout.meaning (medium self.old.card)).power) (L.Layout.meaning (medium self.old.card)) row bytes.now }
        ensures home_stays { (medium self.new.card).node ≡ (medium self.old.card).node }
        ensures refusal_changes_nothing { refusal result ≡ true → self.new ≡ self.old }
    {
        let Some(page) = as_page(bytes) else {
            return Answer::OutOfRange;
        };
        if row >= L::ROWS {
            return Answer::OutOfRange;
        }
        if !self.is_on() {
            return Answer::Off;
        }
        L::write(&mut self.card, row as u8, page)
    }

    fn restart(&mut self, supply: Supply<'_>) -> Answer
        ensures restarts { Restarts (L.Layout.restart_cut (medium self.old.card) supply.entry.left) (L.Layout.meaning (medium self.old.card)) (L.Layout.meaning (medium self.new.card)) supply.entry.left supply.entry.tear supply.entry.junk.now result }
        ensures owes { (L.Layout.meaning (medium self.new.card)).power.owed ≡ owed_after_restart (L.Layout.owed_restarted (L.Layout.meaning (medium self.old.card)).power supply.entry.left supply.entry.tear) (L.Layout.meaning (medium self.old.card)) supply.entry.tear supply.entry.junk.now }
        ensures home_stays { (medium self.new.card).node ≡ (medium self.old.card).node }
        ensures refusal_changes_nothing { refusal result ≡ true → self.new ≡ self.old }
    {
        match Charge::try_from(supply) {
            Ok(charge) => L::restart(&mut self.card, charge),
            Err(answer) => answer,
        }
    }
}
