// The pending productions of a stop's row.
ghost use Rattle.std.specs.Prelude.{◌≡◌, if◌then◌else◌};
ghost use Rattle.model.specs.Row.{room_for_one, cleared_row as cleared, oldest as oldest_of};
ghost use Rattle.model.specs.Answers.{as_result, is_done};
ghost use Rattle.rows.specs.Edits.{produced};
ghost use Rattle.rows.specs.Meaning.{row_of};

use super::StopRow;
use model::{Answer, Production};

impl StopRow {
    // The production that has been pending longest.
    pub fn oldest(&self) -> Option<Production>
        ensures { result ≡ oldest_of (row_of self.now).pending }
    {
        self.pending.as_slice().first().copied()
    }

    // Whether one more production has room and a serial.
    pub fn room_for_one(&self) -> Result<(), Answer>
        ensures { result ≡ as_result (room_for_one (row_of self.now)) }
    {
        if self.pending.as_slice().len() >= 4 {
            Err(Answer::NoRoom)
        } else if self.next == u32::MAX {
            Err(Answer::Over)
        } else {
            Ok(())
        }
    }

    // Appends a production under the next serial and counts that up, or refuses.
    pub fn produce(&mut self, time: u32, amount: u16) -> Result<(), Answer>
        ensures answer { result ≡ as_result (room_for_one (row_of self.old)) }
        ensures after { row_of self.new ≡ (if is_done (room_for_one (row_of self.old)) then produced time amount (row_of self.old) else row_of self.old) }
    {
        self.room_for_one()?;
        let _ = self.pending.push(Production {
            serial: self.next,
            time,
            amount,
        });
        self.next += 1;
        Ok(())
    }

    // Drops the oldest pending production, if there is one.
    pub fn clear_oldest(&mut self)
        ensures { row_of self.new ≡ cleared (row_of self.old) }
    {
        let _ = self.pending.remove(0);
    }
}
