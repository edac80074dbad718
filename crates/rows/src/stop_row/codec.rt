// A row of a stop as its 512 bytes, and back.
ghost use Rattle.std.specs.Prelude.{◌≡◌, ◌^◌, ◌<◌, true, [], ◌∷◌, ◌++◌, is_some, IfSome, Some};
ghost use Rattle.std.specs.Option.{option_map};
ghost use Rattle.model.specs.Row.{Row};
ghost use Rattle.model.specs.Bytes.{u32_bytes};
ghost use Rattle.rows.specs.Edits.{staying};
ghost use Rattle.rows.specs.Layout.{encoded, RowFits};
ghost use Rattle.rows.specs.Meaning.{row_of};
ghost use Rattle.rows.specs.Reading.{row_in, LaidOut};

use super::StopRow;
use crate::bytes::{bytes_at, put};
use crate::entries::{NAMES_AT, PENDING_AT, STATE_AT, entries_in, put_entries};

// What stands before the state: the next serial and how many entries there are.
fn head(next: u32, pending: u8, names: u8) -> [u8; 8]
    ensures fits { next < 2 ^ 32 }
    ensures bytes { result ≡ u32_bytes next ++ pending ∷ names ∷ 0 ∷ 0 ∷ [] }
{
    let [n0, n1, n2, n3] = next.to_le_bytes();
    [n0, n1, n2, n3, pending, names, 0, 0]
}

impl StopRow {
    pub fn encode(&self) -> [u8; 512]
        ensures bytes { result ≡ encoded (row_of self.now) }
        ensures fits { RowFits (row_of self.now) }
        ensures layout { LaidOut (row_of self.now) result }
        ensures once { (other : Row) → RowFits other → encoded other ≡ result → other ≡ row_of self.now }
    {
        let pending = self.pending.as_slice();
        let names = self.names.as_slice();
        let mut out = [0; 512];
        put(
            &mut out,
            0,
            &head(self.next, pending.len() as u8, names.len() as u8),
        );
        put(&mut out, STATE_AT, &self.state);
        put_entries(&mut out, PENDING_AT, pending);
        put_entries(&mut out, NAMES_AT, names);
        out
    }

    // What the bytes say, field by field, whatever they are.
    fn read(bytes: &[u8; 512]) -> StopRow
        ensures { row_of result ≡ row_in bytes.now }
    {
        StopRow {
            next: u32::from_le_bytes(bytes_at(bytes, 0)),
            state: bytes_at(bytes, STATE_AT),
            pending: entries_in(bytes, PENDING_AT, bytes[4]),
            names: entries_in(bytes, NAMES_AT, bytes[5]),
        }
    }

    // The row that has these bytes; none if no row has.
    pub fn decode(bytes: &[u8; 512]) -> Option<StopRow>
        ensures encoding { IfSome result (λ row. RowFits (row_of row) × (encoded (row_of row) ≡ bytes.now)) }
        ensures decodes { (row : Row) → RowFits row → encoded row ≡ bytes.now → option_map row_of result ≡ Some row }
    {
        let row = StopRow::read(bytes);
        (row.encode() == *bytes).then_some(row)
    }

    // How many names stay for a floor in the row that has these bytes; none if no row has.
    pub fn staying_in(bytes: &[u8; 512], floor: u32) -> Option<usize>
        ensures row { is_some result ≡ true → (row : Row) × RowFits row × (encoded row ≡ bytes.now) }
        ensures counts { (row : Row) → RowFits row → encoded row ≡ bytes.now → result ≡ Some (staying floor row) }
    {
        StopRow::decode(bytes).map(|row| row.staying(floor))
    }
}
