// How the rows of a store lie on a card.
ghost use Rattle.std.specs.Prelude.{◌≡◌, ℕ, ◌≤◌, ◌<◌, [], true, length, MatchOption, slice_index_or};
ghost use Rattle.model.specs.Power.{Power};
ghost use Rattle.model.specs.Store.{Stored};
ghost use Rattle.model.specs.declared.answer.CutPoint.{CutPoint};
ghost use Rattle.stores.specs.Cards.{Medium, medium, blank_medium};
ghost use Rattle.stores.specs.Layouts.{Writes, Wakes, Formatted};
ghost use Rattle.stores.specs.Tears.{tear_number};

use crate::card::{Card, Page};
use crate::supply::Charge;
use model::Answer;

// What row, write and restart say of a sound card that is on, and of a row that is there, is all that a store asks of
// them: it has judged the call before it makes it.
pub trait Layout {
    // How many rows there are, and how many pages the card has.
    const ROWS: usize;

    const PAGES: usize;

    ghost ROWS: { ℕ };

    ghost PAGES: { ℕ };

    // What a card means.
    ghost meaning: { Medium → Stored };

    // What holds of every card since it was formatted.
    ghost sound: { Medium → Type 0 };

    // The writes of a commit, the write from which on the row is new, and the most that a restart can owe.
    ghost cost: { ℕ };

    ghost turn: { ℕ };

    ghost bound: { ℕ };

    // Where a commit of a row is cut, and a restart for so many writes.
    ghost commit_cut: { Medium → ℕ → CutPoint };

    ghost restart_cut: { Medium → ℕ → CutPoint };

    // What the next restart owes after a commit, and after a restart for so many writes with such a tear.
    ghost owed_committed: { Power → ℕ };

    ghost owed_restarted: { Power → ℕ → ℕ → ℕ };

    // The writes that the next restart needs.
    fn owed(card: &Card) -> u32
        ensures { result ≡ (meaning (medium card.now)).power.owed };

    // The page that is a row, while the card is on.
    fn row(card: &Card, row: u8) -> Option<&Page>
        ensures { ∥ sound (medium card.now) ∥₁ → row < ROWS → (medium card.now).on ≡ true → MatchOption result ⊥ (λ p. p.now ≡ slice_index_or (meaning (medium card.now)).rows row []) };

    // Makes a row new.
    fn write(card: &mut Card, row: u8, page: &Page) -> Answer
        ensures writes { ∥ sound (medium card.old) ∥₁ → row < ROWS → (medium card.old).on ≡ true → ∥ sound (medium card.new) ∥₁ × Writes cost turn (owed_committed (meaning (medium card.old)).power) (commit_cut (medium card.old) row) (meaning (medium card.old)) (meaning (medium card.new)) row page.now result }
        ensures node_stays { (medium card.new).node ≡ (medium card.old).node };

    // Turns the card on, and finishes what was begun.
    fn restart(card: &mut Card, charge: Charge<'_>) -> Answer
        ensures wakes { ∥ sound (medium card.old) ∥₁ → ∥ sound (medium card.new) ∥₁ × Wakes (owed_restarted (meaning (medium card.old)).power charge.entry.left (tear_number charge.entry.tear)) (restart_cut (medium card.old) charge.entry.left) (meaning (medium card.old)) (meaning (medium card.new)) charge.entry.left (tear_number charge.entry.tear) result }
        ensures node_stays { (medium card.new).node ≡ (medium card.old).node };

    ghost few: { ROWS ≤ 255 };

    ghost turn_counts: { 1 ≤ turn };

    ghost turn_within: { turn ≤ cost };

    ghost rows: { (m : Medium) → length (meaning m).rows ≡ ROWS };

    ghost on: { (m : Medium) → (meaning m).power.on ≡ m.on };

    ghost owes: { (m : Medium) → ∥ sound m ∥₁ → (meaning m).power.owed ≤ bound };

    ghost cut_at_home: { (m : Medium) (row : ℕ) → (commit_cut m row).node ≡ m.node };

    ghost wake_at_home: { (m : Medium) (left : ℕ) → (restart_cut m left).node ≡ m.node };

    ghost formatted: { (node : ℕ) → Formatted meaning sound ROWS PAGES node (blank_medium node PAGES) };
}
