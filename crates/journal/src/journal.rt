// A layout that writes a row to its journal before it writes the row itself.
//
// Row r is at home on page 2 + r. A commit writes page 1, then page 0 with r + 1 in byte 0, then the home, then page 0
// with 0: the row is new as soon as page 0 says that page 1 stands for it. A restart finishes what was begun.
ghost use Rattle.std.specs.Prelude.{◌≡◌, ◌<◌, ◌≤◌, length, refl};
ghost use Rattle.stores.specs.Cards.{medium};
ghost use Rattle.journal.specs.Layout.{home, mark, mark_page, Journals, Mends, meaning, commit_cut_at, restart_cut_at, owed_after_writes, owed_after_mending, Sound};
ghost use Rattle.journal.specs.Laws.{journal_rows, journal_formatted};
ghost use Rattle.std.proofs.Common.{rules};

use model::Answer;
use stores::{Card, Charge, Layout, OnCard, Page};

// The last of the 33 rows.
const LAST: u8 = 32;

pub struct JournalLayout;

pub type Journal = OnCard<JournalLayout>;

// Page 0 with a mark: 0, or r + 1 while page 1 stands for row r. The mark is a byte, as the card's format keeps it.
fn mark_page(mark: u8) -> Page
    ensures { result ≡ mark_page mark }
{
    let mut page = [0; 512];
    page[0] = mark;
    page
}

// The page where a row that there is is at home.
fn home_page(row: u8) -> u8
    ensures { row < 33 → result ≡ home row }
{
    2 + row.min(LAST)
}

// Writes the journal and the mark, and then the home and no mark.
fn write_row(card: &mut Card, row: u8, page: &Page) -> Answer
    ensures journals { row < 33 → Journals (medium card.old) (medium card.new) row page.now result }
    ensures node_stays { (medium card.new).node ≡ (medium card.old).node }
{
    let marked = mark_page(row.saturating_add(1));
    // What is handed on is an answer, done or not: `?` would make a Result of it and an answer of that again.
    match card.write_both(row, 1, page, 0, &marked) {
        Answer::Done => card.write_both(row, home_page(row), page, 0, &mark_page(0)),
        answer => answer,
    }
}

// Finishes the commit that page 1 stands for, if there is one.
fn mend(card: &mut Card) -> Answer
    ensures mends { length (medium card.old).pages ≡ 35 → mark (medium card.old).pages ≤ 33 → Mends (medium card.old) (medium card.new) result }
    ensures node_stays { (medium card.new).node ≡ (medium card.old).node }
{
    let Some(first) = card.page(0) else {
        return Answer::OutOfRange;
    };
    let Some(journal) = card.page(1) else {
        return Answer::OutOfRange;
    };
    let mark = first[0];
    if mark == 0 || mark > LAST + 1 {
        return Answer::Done;
    }
    let bytes = *journal;
    let row = mark - 1;
    card.write_both(row, home_page(row), &bytes, 0, &mark_page(0))
}

impl Layout for JournalLayout {
    const ROWS: usize = 33;

    const PAGES: usize = 35;

    ghost ROWS = { 33 };

    ghost PAGES = { 35 };

    ghost meaning = { meaning };

    ghost sound = { Sound };

    ghost cost = { 4 };

    ghost turn = { 2 };

    ghost bound = { 2 };

    ghost commit_cut = { commit_cut_at };

    ghost restart_cut = { restart_cut_at };

    ghost owed_committed = { λ p. owed_after_writes p.tear p.left };

    ghost owed_restarted = { λ p left tear. owed_after_mending p.owed tear left };

    ghost few = { Prim.search rules };

    ghost turn_counts = { Prim.search rules };

    ghost turn_within = { Prim.search rules };

    ghost rows = { journal_rows };

    ghost on = { Prim.search rules };

    ghost owes = { Prim.search rules };

    ghost cut_at_home = { Prim.search rules };

    ghost wake_at_home = { Prim.search rules };

    ghost formatted = { journal_formatted };

    fn owed(card: &Card) -> u32 {
        let Some(first) = card.page(0) else {
            return 0;
        };
        if first[0] == 0 { 0 } else { 2 }
    }

    fn row(card: &Card, row: u8) -> Option<&Page> {
        card.page(home_page(row))
    }

    fn write(card: &mut Card, row: u8, page: &Page) -> Answer {
        write_row(card, row, page)
    }

    fn restart(card: &mut Card, charge: Charge<'_>) -> Answer {
        card.restart(charge);
        mend(card)
    }
}
