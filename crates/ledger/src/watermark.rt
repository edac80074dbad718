// The row of the watermark, read and committed whole.
ghost use Rattle.std.specs.Prelude.{◌≡◌, ℕ, ◌^◌, ◌<◌, List};
ghost use Rattle.model.specs.Computation.{Computation};
ghost use Rattle.model.specs.declared.answer.CutPoint.{CutPoint};
ghost use Rattle.rows.specs.Layout.{encoded_watermark};
ghost use Rattle.ledger.specs.Promises.{WatermarkRead, WatermarkCommitted};

use super::paged::{Paged, commit, read};
use model::Answer;
use rows::WatermarkRow;
use stores::Store;

// The row behind those of the stops.
const WATERMARK_ROW: usize = 32;

impl Paged for WatermarkRow {
    ghost Meaning = { ℕ };

    ghost says = { λ row. row.watermark };

    ghost Fits = { λ w. w < 2 ^ 32 };

    ghost page = { encoded_watermark };

    fn to_page(&self) -> [u8; 512] {
        self.encode()
    }

    fn from_page(bytes: &[u8; 512]) -> Option<WatermarkRow> {
        WatermarkRow::decode(bytes)
    }
}

// The watermark; none if it cannot be read, or its row is none.
pub fn read_watermark<S: Store>(store: &mut S) -> Option<u32>
    ensures reads { WatermarkRead (S.model store.old) (S.model store.new) result }
    ensures cuts_stay { (S.commit_cut store.new ≡ S.commit_cut store.old) × (S.restart_cut store.new ≡ S.restart_cut store.old) }
{
    read(store, WATERMARK_ROW).map(|row: WatermarkRow| row.watermark)
}

// Makes this the watermark.
pub fn commit_watermark<S: Store>(store: &mut S, watermark: u32) -> Answer
    ensures { (computation : Computation (List ℕ)) (wake : CutPoint) → WatermarkCommitted (record { computation = computation; cost = S.cost; turn = S.turn }) (record { owed = (S.model store.new).power.owed; point = S.commit_cut store.old; wake = wake }) (S.model store.old) (S.model store.new) watermark result }
{
    commit(store, WATERMARK_ROW, &WatermarkRow { watermark })
}
