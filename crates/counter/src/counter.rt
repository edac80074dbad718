// The counter as a computation.
ghost use Rattle.counter.specs.Counter.{counter as counting, CounterSound, held as holding};
ghost use Rattle.counter.specs.Laws.{counter_lawful, counter_conserves};

use super::minutes::{earliest_minute, place, raised_mark, sum_of};
use super::state::CounterState;
use computations::{Computation, Conserving};
use model::Verdict;

#[derive(Clone, Copy)]
pub struct Counter;

impl Computation for Counter {
    type State = CounterState;

    ghost operations = { counting };

    ghost sound = { CounterSound };

    ghost lawful = { counter_lawful };

    fn mark(state: &CounterState) -> u32 {
        state.mark
    }

    fn due(state: &CounterState) -> Option<u32> {
        earliest_minute(state).map(|minute| minute.saturating_add(1).saturating_mul(60))
    }

    fn verdict(state: &CounterState, w: u32, time: u32, amount: u16) -> Verdict {
        if time.saturating_sub(raised_mark(state, w)) >= 240 {
            Verdict::TooEarly
        } else if u32::from(sum_of(state, time / 60)) + u32::from(amount) > 65_535 {
            Verdict::TooMuch
        } else {
            Verdict::Fine
        }
    }

    fn take(
        state: &CounterState,
        w: u32,
        time: u32,
        amount: u16,
    ) -> (CounterState, Option<(u32, u16)>) {
        let mut sums = state.sums;
        sums[place(time / 60)] += amount;
        let mark = raised_mark(state, w);
        (CounterState { mark, sums }, None)
    }

    fn fire(state: &CounterState) -> (CounterState, Option<(u32, u16)>) {
        let Some(minute) = earliest_minute(state) else {
            return (*state, None);
        };
        let mark = 60 * (minute + 1);
        let mut sums = state.sums;
        sums[place(minute)] = 0;
        (
            CounterState { mark, sums },
            Some((mark, sum_of(state, minute))),
        )
    }

    fn load(bytes: &[u8; 32]) -> CounterState {
        CounterState::from(*bytes)
    }

    fn store(state: &CounterState) -> [u8; 32] {
        <[u8; 32]>::from(*state)
    }
}

impl Conserving for Counter {
    ghost holds = { holding };

    ghost conserves = { counter_conserves };

    fn held(state: &CounterState) -> u32 {
        state.sums.iter().map(|sum| u32::from(*sum)).sum()
    }
}
