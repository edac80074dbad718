// A due of a row is fired.
ghost use Rattle.std.specs.Result.{MatchResult};
ghost use Rattle.model.specs.OnBytes.{on_bytes};
ghost use Rattle.rows.specs.Meaning.{row_of};
ghost use Rattle.steps.specs.Steps.{Fired, Unfired, Reached};

use super::emits::emit;
use computations::{Computation, fire_due};
use model::Answer;
use rows::StopRow;

// Fires the due of a row at a watermark, and gives the stop's new floor; or the answer that refuses it, and the row is
// then of no more use.
pub fn fire_row<C: Computation>(row: &mut StopRow, w: u32) -> Result<u32, Answer>
    ensures { Reached (on_bytes C.operations) w (row_of row.old) → MatchResult result (Fired (on_bytes C.operations) w (row_of row.old) (row_of row.new)) (Unfired (row_of row.old)) }
{
    row.room_for_one()?;
    let (state, emission) = fire_due::<C>(row.state(), w).ok_or(Answer::Nothing)?;
    let floor = C::mark(&state).max(w);
    row.forget(floor);
    emit(row, emission)?;
    row.replace_state(C::store(&state));
    Ok(floor)
}
