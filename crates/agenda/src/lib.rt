// What a node has to look at first: the timers, by the earliest due, and the panel, by the greatest amount.
//
// Each holds, for every stop, a value or none, in a heap of as many slots as there are stops. So nothing is allocated,
// and a change moves one slot to its new place.
#![tactic(auto)]

mod agenda;
mod offer;
mod panel;
mod slot;
mod slots;

pub use agenda::{Agenda, Timers};
pub use panel::Panel;
