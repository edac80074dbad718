// A third computation, as unpleasant as the laws allow: whatever holds for every computation has to hold for it.
ghost use Rattle.std.specs.Prelude.{◌≡◌};
ghost use Rattle.eager.specs.Eager.{eager as eagerly, EagerSound};
ghost use Rattle.eager.specs.Laws.{eager_lawful};

use super::state::EagerState;
use computations::Computation;
use model::Verdict;

#[derive(Clone, Copy)]
pub struct Eager;

impl Computation for Eager {
    type State = EagerState;

    ghost operations = { eagerly };

    ghost sound = { EagerSound };

    ghost lawful = { eager_lawful };

    fn mark(state: &EagerState) -> u32 {
        state.mark
    }

    fn due(state: &EagerState) -> Option<u32> {
        state.due
    }

    fn verdict(_state: &EagerState, _w: u32, time: u32, amount: u16) -> Verdict {
        if time % 7 == 6 {
            Verdict::TooEarly
        } else if amount == 13 {
            Verdict::TooMuch
        } else {
            Verdict::Fine
        }
    }

    fn take(
        state: &EagerState,
        _w: u32,
        time: u32,
        _amount: u16,
    ) -> (EagerState, Option<(u32, u16)>) {
        let due = Some(state.due.map_or(time, |due| due.min(time)));
        (EagerState { mark: time, due }, Some((time, 65_535)))
    }

    fn fire(state: &EagerState) -> (EagerState, Option<(u32, u16)>) {
        let mark = state.due.map_or(state.mark, |due| state.mark.max(due));
        (
            EagerState {
                mark,
                due: state.due,
            },
            Some((mark, 65_535)),
        )
    }

    fn load(bytes: &[u8; 32]) -> EagerState {
        EagerState::from(*bytes)
    }

    fn store(state: &EagerState) -> [u8; 32] {
        <[u8; 32]>::from(*state)
    }
}
