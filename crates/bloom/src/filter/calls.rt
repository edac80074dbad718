// Reading and setting the bits.
ghost use Rattle.std.specs.Prelude.{◌≡◌, ◌<◌, false, IfOk};
ghost use Rattle.bloom.specs.Bits.{with_bit, with_four, all_set};
ghost use Rattle.bloom.specs.Filter.{bits_in};

use super::Filter;
use crate::bits::bits_of;
use names::Taken;
use std::alloc::{AllocError, Global};

const WORDS: usize = 256;

impl Filter {
    // All bits clear.
    pub(crate) fn new(heap: Global) -> Result<Filter, AllocError>
        ensures { IfOk result (λ f. bits_in f ≡ (λ _. false)) }
    {
        let words = vec![in heap; 0; WORDS]?;
        Ok(Filter { words })
    }

    fn get(&self, bit: usize) -> bool
        requires { bit < 16384 }
        ensures { result ≡ bits_in self.now bit }
    {
        (self.words[bit / 64] >> (bit % 64)) % 2 == 1
    }

    fn set(&mut self, bit: usize)
        requires { bit < 16384 }
        ensures { bits_in self.new ≡ with_bit (bits_in self.old) bit }
    {
        let word = self.words[bit / 64];
        self.words[bit / 64] = word | (1 << (bit % 64));
    }

    // Whether the four bits of the name are set.
    pub(crate) fn has_all(&self, taken: Taken) -> bool
        ensures { result ≡ all_set (bits_in self.now) taken.stop taken.name }
    {
        bits_of(taken).iter().all(|bit| self.get(*bit))
    }

    // Sets the four bits of the name.
    pub(crate) fn set_all(&mut self, taken: Taken)
        ensures { bits_in self.new ≡ with_four (bits_in self.old) taken.stop taken.name }
    {
        for bit in bits_of(taken) {
            self.set(bit);
        }
    }

    // Clears every bit.
    pub(crate) fn clear(&mut self)
        ensures { bits_in self.new ≡ (λ _. false) }
    {
        self.words.fill(0);
    }
}
