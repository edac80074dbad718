// A layout that keeps two slots for each row and says on page 0 which of them is live.
//
// Row r has its slots on pages 1 + 2r and 2 + 2r, and byte r of page 0 is 0 or 1 for the live one. A commit writes the
// other slot and then page 0, so the row turns new with the second write, and a restart has nothing to mend.
ghost use Rattle.std.specs.Prelude.{◌≡◌, ◌<◌, length, MatchOption, ◌≢◌};
ghost use Rattle.stores.specs.Cards.{medium};
ghost use Rattle.shadow.specs.Layout.{slot, row_in, Switches, meaning, commit_cut_at, restart_cut_at, Sound};
ghost use Rattle.shadow.specs.Laws.{shadow_rows, shadow_formatted};
ghost use Rattle.std.proofs.Common.{rules, refl};

use model::Answer;
use stores::{Card, Charge, Layout, OnCard, Page};

// The last of the 33 rows.
const LAST: u8 = 32;
// A restart has nothing to write.
const OWED: u32 = 0;

pub struct ShadowLayout;

pub type Shadow = OnCard<ShadowLayout>;

// The page that holds a row.
fn live(card: &Card, row: u8) -> Option<&Page>
    ensures { row < 33 → MatchOption result (length (medium card.now).pages ≢ 67) (λ p. p.now ≡ row_in (medium card.now).pages row) }
{
    let flags = card.page(0)?;
    card.page(slot_page(row, flags[usize::from(row)].min(1)))
}

// Writes the other slot of a row, and then page 0 with that slot live.
fn switch(card: &mut Card, row: u8, page: &Page) -> Answer
    ensures switches { row < 33 → 0 < length (medium card.old).pages → Switches (medium card.old) (medium card.new) row page.now result }
    ensures node_stays { (medium card.new).node ≡ (medium card.old).node }
{
    let Some(flags) = card.page(0) else {
        return Answer::OutOfRange;
    };
    let mut switched = *flags;
    let at = usize::from(row);
    let other = 1u8.saturating_sub(switched[at]);
    switched[at] = other;
    let spot = slot_page(row, other);
    card.write_both(row, spot, page, 0, &switched)
}

// The page of a slot of a row that there is. Which slot is a byte, 0 or 1, as the card's format keeps it on page 0.
fn slot_page(row: u8, which: u8) -> u8
    ensures { row < 33 → which < 2 → result ≡ slot row which }
{
    1 + 2 * row.min(LAST) + which.min(1)
}

impl Layout for ShadowLayout {
    const ROWS: usize = 33;

    const PAGES: usize = 67;

    ghost ROWS = { 33 };

    ghost PAGES = { 67 };

    ghost meaning = { meaning };

    ghost sound = { Sound };

    ghost cost = { 2 };

    ghost turn = { 2 };

    ghost bound = { 0 };

    ghost commit_cut = { commit_cut_at };

    ghost restart_cut = { restart_cut_at };

    ghost owed_committed = { λ p. 0 };

    ghost owed_restarted = { λ p left tear. 0 };

    ghost few = { Prim.search rules };

    ghost turn_counts = { Prim.search rules };

    ghost turn_within = { Prim.search rules };

    ghost rows = { shadow_rows };

    ghost on = { Prim.search rules };

    ghost owes = { Prim.search rules };

    ghost cut_at_home = { Prim.search rules };

    ghost wake_at_home = { Prim.search rules };

    ghost formatted = { shadow_formatted };

    fn owed(_card: &Card) -> u32 {
        OWED
    }

    fn row(card: &Card, row: u8) -> Option<&Page> {
        live(card, row)
    }

    fn write(card: &mut Card, row: u8, page: &Page) -> Answer {
        switch(card, row, page)
    }

    fn restart(card: &mut Card, charge: Charge<'_>) -> Answer {
        card.restart(charge);
        Answer::Done
    }
}
