// The row of a stop, read and committed whole.
ghost use Rattle.std.specs.Prelude.{◌≡◌, ℕ, List};
ghost use Rattle.model.specs.Computation.{Computation};
ghost use Rattle.model.specs.Row.{Row};
ghost use Rattle.model.specs.declared.answer.CutPoint.{CutPoint};
ghost use Rattle.rows.specs.Layout.{encoded, RowFits};
ghost use Rattle.rows.specs.Meaning.{row_of};
ghost use Rattle.ledger.specs.Promises.{RowRead, RowCommitted};

use super::paged::{Paged, commit, read};
use model::Answer;
use rows::StopRow;
use stores::Store;

impl Paged for StopRow {
    ghost Meaning = { Row };

    ghost says = { row_of };

    ghost Fits = { RowFits };

    ghost page = { encoded };

    fn to_page(&self) -> [u8; 512] {
        self.encode()
    }

    // Inlined, as a row is large: each function that hands it on would move it once more.
    #[inline(always)]
    fn from_page(bytes: &[u8; 512]) -> Option<StopRow> {
        StopRow::decode(bytes)
    }
}

// The row of a stop; none if it cannot be read, or is no row of a stop.
pub fn read_row<S: Store>(store: &mut S, stop: u16) -> Option<StopRow>
    ensures reads { RowRead (S.model store.old) (S.model store.new) stop result }
    ensures cuts_stay { (S.commit_cut store.new ≡ S.commit_cut store.old) × (S.restart_cut store.new ≡ S.restart_cut store.old) }
{
    read(store, usize::from(stop))
}

// Makes this the row of a stop.
pub fn commit_row<S: Store>(store: &mut S, stop: u16, row: &StopRow) -> Answer
    ensures { (computation : Computation (List ℕ)) (wake : CutPoint) → RowCommitted (record { computation = computation; cost = S.cost; turn = S.turn }) (record { owed = (S.model store.new).power.owed; point = S.commit_cut store.old; wake = wake }) (S.model store.old) (S.model store.new) stop (row_of row.now) result }
{
    commit(store, usize::from(stop), row)
}
