// The detector keeps a prediction of the next amount and tells of one that stands out: at least ten, and at least twice
// what was predicted. It also keeps the total of all it took.
//
// `state` is what it keeps of a stop and `layout` its bytes, `prediction` is the arithmetic, `detector` the computation.
#![tactic(auto)]

mod detector;
mod layout;
mod prediction;
mod state;

pub use detector::Detector;
pub use state::DetectorState;
