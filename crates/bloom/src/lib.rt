// A Bloom filter over any name set: most names that were never taken are told from four bits alone.
//
// The layer is a name set with the meaning of the set below. A no from the filter is never wrong, since every name
// that the set holds has its four bits set; so only the other questions are passed below, and the layer counts them.
#![tactic(auto)]

mod bits;
mod filter;
mod layer;

pub use bits::bits_of;
pub use layer::Bloom;
