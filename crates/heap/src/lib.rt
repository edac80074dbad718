// A heap in a lent slice, for elements of any total order; the least stands first.
//
// Each function rearranges the slice that it is lent and keeps its elements. What it promises of the order holds where
// the elements' `cmp` is a total order: each clause takes one, `o`, since a clause may not name the bound's law and the
// definitions speak of the order's totality.
#![tactic(auto)]

mod operations;
mod sifts;

pub use operations::{build, change_at, least, put_in, take_at, take_least};
pub use sifts::{sift_down, sift_up};
