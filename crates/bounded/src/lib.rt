// A list with a bound, in memory of its own.
#![tactic(auto)]

mod list;

pub use list::Bounded;
