// Which names were taken at which stop: what a name set is, and what every kind of name set promises.
//
// A name set means a set of pairs of a stop and a name, at most 1,280 of them. Its meaning is pinned twice: by which
// pairs it holds, and by how many there are. So a set that forgets, or that is always full, is not one.
#![tactic(auto)]

mod fill;
mod room;
mod set;
mod taken;

pub use fill::add_all;
pub use room::most_names;
pub use set::NameSet;
pub use taken::Taken;
