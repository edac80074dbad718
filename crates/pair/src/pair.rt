// A pair: the collector, the spotter, and the messages between them.
ghost use Rattle.std.specs.Prelude.{◌≡◌, Some};
ghost use Rattle.pair.specs.Words.{reason};
ghost use Rattle.pair.specs.declared.pair.Stopped.TheVariants.{NoMemory, Damaged as DamagedRow};

mod both;
mod calls;
mod collects;
mod delivers;
mod makes;
mod passes;
mod runs;
mod sends;
mod tallies;
mod watches;

use link::Link;
use node::{Damaged, Node};
use std::alloc::AllocError;
use std::error::Error;
use std::fmt;

// The collector has a store S, a name set N and a computation C; the spotter has T, O and D. Clauses name the six one by
// one: the ghost record of a trait that bundles a node's three would not carry their own.
#[derive(Drop)]
pub struct Pair<S, N, C, T, O, D> {
    collector: Node<S, N, C>,
    spotter: Node<T, O, D>,
    link: Link,
}

// Where the requests for a stop are: in open minutes, pending at the collector, landed at the spotter.
#[derive(Clone, Copy, PartialEq, Eq, Debug)]
pub struct Tally {
    pub held: u32,
    pub pending: u32,
    pub landed: u32,
}

// Why a list of calls was not made to its end.
#[derive(Clone, Copy, PartialEq, Eq, Debug)]
pub enum Stopped {
    // There was no memory for the outcomes, and nothing has happened.
    NoMemory,
    // A row was read that no list of calls leaves.
    Damaged,
}

impl From<AllocError> for Stopped {
    ghost from_gives = { λ _ stopped. stopped ≡ NoMemory };

    fn from(_error: AllocError) -> Self {
        Self::NoMemory
    }
}

impl From<Damaged> for Stopped {
    ghost from_gives = { λ _ stopped. stopped ≡ DamagedRow };

    fn from(_damaged: Damaged) -> Self {
        Self::Damaged
    }
}

impl fmt::Display for Stopped {
    ghost output = { λ stopped. Some (reason stopped) };

    fn fmt<W: fmt::Write>(&self, f: &mut fmt::Formatter<W>) -> fmt::Result {
        match self {
            Stopped::NoMemory => write!(f, "there is not enough memory"),
            Stopped::Damaged => write!(f, "a row is damaged"),
        }
    }
}

impl Error for Stopped {}
