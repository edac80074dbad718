// What a stop's row says.
ghost use Rattle.std.specs.Prelude.{◌≡◌, replicate};
ghost use Rattle.model.specs.Limits.{page_bytes};
ghost use Rattle.model.specs.Row.{first_row};
ghost use Rattle.rows.specs.Edits.{with_state};
ghost use Rattle.rows.specs.Layout.{encoded};
ghost use Rattle.rows.specs.Meaning.{row_of};

use super::StopRow;
use bounded::Bounded;
use model::{Name, Production};

impl StopRow {
    // The row of a stop where nothing has happened; its bytes are all zero.
    pub fn first() -> StopRow
        ensures row { row_of result ≡ first_row }
        ensures zeros { encoded first_row ≡ replicate page_bytes 0 }
    {
        StopRow {
            next: 0,
            state: [0; 32],
            pending: Bounded::new(Production::default()),
            names: Bounded::new(Name::default()),
        }
    }

    pub fn next(&self) -> u32
        ensures { result ≡ (row_of self.now).next }
    {
        self.next
    }

    pub fn state(&self) -> &[u8; 32]
        ensures { result.now ≡ (row_of self.now).state }
    {
        &self.state
    }

    pub fn pending(&self) -> &[Production]
        ensures { result.now ≡ (row_of self.now).pending }
    {
        self.pending.as_slice()
    }

    pub fn names(&self) -> &[Name]
        ensures { result.now ≡ (row_of self.now).names }
    {
        self.names.as_slice()
    }

    pub fn replace_state(&mut self, state: [u8; 32])
        ensures { row_of self.new ≡ with_state state (row_of self.old) }
    {
        self.state = state;
    }
}
