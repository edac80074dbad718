// The order in which a record is judged, whatever the computation.
ghost use Rattle.std.specs.Prelude.{◌≡◌};
ghost use Rattle.model.specs.Admission.{judged};

use super::computation::Computation;
use super::moment::Moment;
use model::{Answer, Record, Verdict};

// The answer to a record before it is taken: the first reason against it, or `Done` if it may be taken.
pub fn admit<C: Computation>(state: &C::State, moment: Moment, given: &Record) -> Answer
    ensures { C.sound state.now → result ≡ judged C.operations state.now moment.on moment.w moment.seen given.now }
{
    let floor = C::mark(state).max(moment.w);
    let verdict = C::verdict(state, moment.w, given.name.time, given.amount);
    match (given.stop, given.name.time, given.amount, verdict) {
        (32.., _, _, _) | (_, 4_000_000_001.., _, _) | (_, _, 0, _) => Answer::OutOfRange,
        _ if !moment.on => Answer::Off,
        (_, time, _, _) if time < floor => Answer::Late,
        _ if moment.seen => Answer::Seen,
        (_, _, _, Verdict::TooEarly) => Answer::Early,
        (_, _, _, Verdict::TooMuch) => Answer::Over,
        (_, _, _, Verdict::Fine) => Answer::Done,
    }
}
