// What a node does with the 32 bytes of a state, whatever the computation: take a record if it is admitted, fire a due
// that the watermark has reached. A take and a fire happen here only when they may.
ghost use Rattle.std.specs.Prelude.{◌≡◌};
ghost use Rattle.computations.specs.Judging.{Considered, Attended};

use super::admission::admit;
use super::computation::Computation;
use super::moment::Moment;
use model::{Answer, Record};

// The state after a record that is admitted and what it emits, or the answer that refuses it.
pub fn consider<C: Computation>(
    bytes: &[u8; 32],
    moment: Moment,
    given: &Record,
) -> Result<(C::State, Option<(u32, u16)>), Answer>
    ensures { Considered C.operations C.sound (C.operations.load bytes.now) moment.on moment.w moment.seen given.now result }
{
    let state = C::load(bytes);
    admit::<C>(&state, moment, given).done()?;
    Ok(C::take(&state, moment.w, given.name.time, given.amount))
}

// The state after its due was fired and what it emits, if the watermark has reached one.
pub fn fire_due<C: Computation>(bytes: &[u8; 32], w: u32) -> Option<(C::State, Option<(u32, u16)>)>
    ensures { Attended C.operations C.sound (C.operations.load bytes.now) w result }
{
    let state = C::load(bytes);
    let due = C::due(&state)?;
    (due <= w.min(4_000_000_000)).then(|| C::fire(&state))
}

// The second at which the state wants to fire, if it does.
pub fn due_in<C: Computation>(bytes: &[u8; 32]) -> Option<u32>
    ensures { result ≡ C.operations.due (C.operations.load bytes.now) }
{
    let state = C::load(bytes);
    C::due(&state)
}
