// The names of a stop's row.
ghost use Rattle.std.specs.Prelude.{◌≡◌, Ok, Err, if◌then◌else◌, nat_lt};
ghost use Rattle.model.specs.Limits.{most_names};
ghost use Rattle.model.specs.declared.answer.Answer.TheVariants.{Full};
ghost use Rattle.rows.specs.Edits.{staying, forgetting, remembering};
ghost use Rattle.rows.specs.Meaning.{row_of};

use super::StopRow;
use model::{Answer, Name};

impl StopRow {
    // How many names stay for a floor.
    pub fn staying(&self, floor: u32) -> usize
        ensures { result ≡ staying floor (row_of self.now) }
    {
        self.names
            .as_slice()
            .iter()
            .filter(|name| name.time >= floor)
            .count()
    }

    // Drops the names below a floor.
    pub fn forget(&mut self, floor: u32)
        ensures { row_of self.new ≡ forgetting floor (row_of self.old) }
    {
        self.names.retain(|name| name.time >= floor);
    }

    // Drops the names below a floor and appends one; refuses, and drops none, if forty stay.
    pub fn remember(&mut self, floor: u32, name: Name) -> Result<(), Answer>
        ensures room { result ≡ (if nat_lt (staying floor (row_of self.old)) most_names then Ok tt else Err Full) }
        ensures after { row_of self.new ≡ (if nat_lt (staying floor (row_of self.old)) most_names then remembering floor name (row_of self.old) else row_of self.old) }
    {
        // Where forty stay, none has fallen: the row is as it was.
        self.forget(floor);
        self.names.push(name).map_err(|_| Answer::Full)
    }
}
