// The open minutes of a counter's state.
ghost use Rattle.std.specs.Prelude.{◌≡◌, ◌/◌, ◌%◌, MatchOption};
ghost use Rattle.counter.specs.Counter.{sum_of, earliest, raised, Earliest, Empty};

use super::state::CounterState;

// Where a minute's sum is.
pub(super) fn place(minute: u32) -> usize
    ensures { result ≡ minute % 4 }
{
    (minute % 4) as usize
}

// The sum of a minute.
pub(super) fn sum_of(state: &CounterState, minute: u32) -> u16
    ensures { result ≡ sum_of state.now minute }
{
    state.sums[place(minute)]
}

// The earliest open minute with a sum.
pub(super) fn earliest_minute(state: &CounterState) -> Option<u32>
    ensures value { result ≡ earliest state.now }
    ensures first { MatchOption result (Empty state.now (state.now.mark / 60) 4) (Earliest state.now (state.now.mark / 60) 4) }
{
    let first = state.mark / 60;
    (first..first + 4).find(|minute| sum_of(state, *minute) > 0)
}

// The mark from which a take at a watermark begins: it passes empty minutes only.
pub(super) fn raised_mark(state: &CounterState, w: u32) -> u32
    ensures { result ≡ raised state.now w }
{
    let reached = earliest_minute(state).map_or(w / 60, |minute| minute.min(w / 60));
    state.mark.max(60 * reached)
}
