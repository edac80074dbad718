// The journal store: a row is written to the journal before it is written to its home.
#![tactic(auto)]

mod journal;

pub use journal::{Journal, JournalLayout};
