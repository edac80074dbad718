// A node: its store, and beside it what is made again from the rows at each restart.
mod advances;
mod clears;
mod commits;
mod fires;
mod hands_in;
mod reads;
mod restarts;
mod theory;

use agenda::{Panel, Timers};
use queue::Queue;
use std::marker::PhantomData;
pub use theory::shows_one;

// The greatest time that a record or a watermark can have.
const LAST_TIME: u32 = 4_000_000_000;

// A row that no list of calls leaves.
#[derive(Clone, Copy, PartialEq, Eq, Debug)]
pub struct Damaged;

// A store S, a name set N and a computation C, which clauses name one by one: the ghost record of a trait that bundles the
// three would not carry their own.
#[derive(Drop)]
pub struct Node<S, N, C> {
    store: S,
    names: N,
    timers: Timers,
    panel: Panel,
    queue: Queue,
    watermark: u32,
    computation: PhantomData<C>,
}
