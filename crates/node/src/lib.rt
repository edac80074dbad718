// One node: the keyed processor over any store, name set and computation.
#![tactic(auto)]

mod node;

pub use node::{Damaged, Node, shows_one};
