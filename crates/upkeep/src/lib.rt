// What is kept beside the rows, brought in step with a row that was committed: the name set and the send queue.
#![tactic(auto)]

mod naming;
mod queueing;

pub use naming::{fallen, rename};
pub use queueing::requeue;
