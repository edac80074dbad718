// What a step emits becomes the youngest pending production.
ghost use Rattle.std.specs.Prelude.{◌≡◌, if◌then◌else◌};
ghost use Rattle.model.specs.Answers.{as_result, is_done};
ghost use Rattle.law.specs.Rows.{room_for};
ghost use Rattle.rows.specs.Meaning.{row_of};
ghost use Rattle.steps.specs.Steps.{emitting};

use model::Answer;
use rows::StopRow;

pub fn emit(row: &mut StopRow, emission: Option<(u32, u16)>) -> Result<(), Answer>
    ensures answer { result ≡ as_result (room_for emission (row_of row.old)) }
    ensures after { row_of row.new ≡ (if is_done (room_for emission (row_of row.old)) then emitting emission (row_of row.old) else row_of row.old) }
{
    match emission {
        Some((time, amount)) => row.produce(time, amount),
        None => Ok(()),
    }
}
