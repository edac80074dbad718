// The row cache: a store made of any store, with its meaning, that need not ask it for a row that it has at hand.
//
// `entries` has the copies, `cached` the store. There are copies only while the store below is on, and each is the row:
// a commit that is done refreshes the copy, and one that is cut lets all copies go, as a failing power would.
#![tactic(auto)]

mod cached;
mod entries;

pub use cached::Cached;
