// A name set that keeps its names in order, and finds one by halving.
#![tactic(auto)]

mod order;
mod table;

pub use table::SortedNames;
