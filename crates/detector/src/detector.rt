// The detector as a computation.
ghost use Rattle.std.specs.Prelude.{◌≡◌};
ghost use Rattle.detector.specs.Detector.{detector as detecting, DetectorSound};
ghost use Rattle.detector.specs.Laws.{detector_lawful, detector_totals};

use super::prediction::{is_spike, moved_to};
use super::state::DetectorState;
use computations::{Computation, Totalling};
use model::Verdict;

#[derive(Clone, Copy)]
pub struct Detector;

impl Computation for Detector {
    type State = DetectorState;

    ghost operations = { detecting };

    ghost sound = { DetectorSound };

    ghost lawful = { detector_lawful };

    fn mark(state: &DetectorState) -> u32 {
        state.mark
    }

    fn due(_state: &DetectorState) -> Option<u32> {
        None
    }

    fn verdict(state: &DetectorState, _w: u32, _time: u32, amount: u16) -> Verdict {
        if state.total > u32::MAX - u32::from(amount) {
            Verdict::TooMuch
        } else {
            Verdict::Fine
        }
    }

    fn take(
        state: &DetectorState,
        _w: u32,
        time: u32,
        amount: u16,
    ) -> (DetectorState, Option<(u32, u16)>) {
        let emission = is_spike(state.predicted, amount).then_some((time, amount));
        let after = DetectorState {
            predicted: moved_to(state.predicted, amount),
            total: state.total + u32::from(amount),
            mark: time,
        };
        (after, emission)
    }

    // Nothing is ever due; asked all the same, it changes and emits nothing.
    fn fire(state: &DetectorState) -> (DetectorState, Option<(u32, u16)>)
        ensures { result ≡ detecting.fire state.now }
    {
        (*state, None)
    }

    fn load(bytes: &[u8; 32]) -> DetectorState {
        DetectorState::from(*bytes)
    }

    fn store(state: &DetectorState) -> [u8; 32] {
        <[u8; 32]>::from(*state)
    }
}

impl Totalling for Detector {
    ghost totals = { λ s. s.total };

    ghost adds = { detector_totals };

    fn total(state: &DetectorState) -> u32 {
        state.total
    }
}
