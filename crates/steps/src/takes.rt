// A record is taken into a row.
ghost use Rattle.std.specs.Prelude.{◌≡◌, MatchResult};
ghost use Rattle.model.specs.OnBytes.{on_bytes};
ghost use Rattle.law.specs.Rows.{seen as seen_in};
ghost use Rattle.rows.specs.Meaning.{row_of};
ghost use Rattle.steps.specs.Steps.{Took, Refused};

use super::emits::emit;
use computations::{Computation, Moment, consider};
use model::{Answer, Record};
use rows::StopRow;

// Takes a record into a row, and gives the stop's new floor; or the answer that refuses it, and the row is then of no
// more use. Whether the name was seen has been asked before.
pub fn take_record<C: Computation>(
    row: &mut StopRow,
    moment: Moment,
    given: &Record,
) -> Result<u32, Answer>
    ensures { moment.seen ≡ seen_in given.now.name (row_of row.old).names → MatchResult result (Took (on_bytes C.operations) moment.on moment.w given.now (row_of row.old) (row_of row.new)) (Refused (on_bytes C.operations) moment.on moment.w given.now (row_of row.old)) }
{
    let (state, emission) = consider::<C>(row.state(), moment, given)?;
    let floor = C::mark(&state).max(moment.w);
    row.remember(floor, given.name)?;
    // A fire ends in the same three lines; a function for both would take the row, the floor, the state and the emission.
    emit(row, emission)?;
    row.replace_state(C::store(&state));
    Ok(floor)
}
