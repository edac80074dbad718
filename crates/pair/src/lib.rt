// Two nodes and the link between them: the collector counts, the spotter watches, and eleven calls are all that can
// befall them.
#![tactic(auto)]

mod pair;

pub use pair::{Pair, Stopped, Tally};
