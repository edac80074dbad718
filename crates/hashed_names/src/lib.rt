// A name set that finds a name by its hash, in 2,048 places with linear probing.
#![tactic(auto)]

mod places;
mod table;

pub use table::HashedNames;
