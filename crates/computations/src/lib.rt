// What a node counts with. A computation brings its own kind of state, says what it takes and when it is due, and owes
// one law, under which a node of any computation loses nothing, repeats nothing and keeps its order.
//
// `computation` is the trait and `weight` two laws that a count over a run rests on; `admission` judges a record at a
// `moment`, and `judging` takes and fires, for any computation; `bytes` has the laws on the 32 bytes of a state.
#![tactic(auto)]

mod admission;
mod bytes;
mod computation;
mod judging;
mod moment;
mod weight;

pub use admission::admit;
pub use bytes::{conserves_on_bytes, lawful_on_bytes, padded, totals_on_bytes};
pub use computation::Computation;
pub use judging::{consider, due_in, fire_due};
pub use moment::Moment;
pub use weight::{Conserving, Totalling, held_in, total_in};
