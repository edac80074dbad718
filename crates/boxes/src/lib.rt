// The two boxes as they are built: the collector has a journal store under a row cache, a sorted table under a Bloom layer
// and the counter; the spotter has a shadow store, a hash table and the detector.
#![tactic(auto)]

mod boxes;
mod parts;

pub use boxes::account_of;
