// The layer.
ghost use Rattle.bloom.specs.Filter.{bits_in};
ghost use Rattle.bloom.specs.Marked.{Marked};

use crate::filter::Filter;
use names::NameSet;

mod calls;
mod reads;

// A name set behind 16,384 bits. Every name that the set holds has its four bits set.
#[derive(Drop)]
pub struct Bloom<N: NameSet> {
    set: N,
    filter: Filter,
    asked: u32,
    ghost marked: { Marked (N.meaning set) (bits_in filter) },
}
