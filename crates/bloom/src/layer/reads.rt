// Making the layer, and reading its bits and its count.
ghost use Rattle.std.specs.Prelude.{◌≡◌, true, false, IfOk};
ghost use Rattle.names.specs.Changes.{Cleared};
ghost use Rattle.bloom.specs.Bits.{all_set};
ghost use Rattle.bloom.specs.Layer.{layer_meaning, layer_bits};

use super::Bloom;
use crate::filter::Filter;
use names::{NameSet, Taken};
use std::alloc::{AllocError, Global};

impl<N: NameSet + Drop> Bloom<N> {
    // The layer over a set, which is cleared.
    pub fn new(heap: Global, mut set: N) -> Result<Bloom<N>, AllocError>
        ensures cleared { IfOk result (λ b. Cleared (layer_meaning b)) }
        ensures bits { IfOk result (λ b. layer_bits b ≡ (λ _. false)) }
        ensures count { IfOk result (λ b. b.asked ≡ 0) }
    {
        let filter = Filter::new(heap)?;
        set.clear();
        Ok(Bloom {
            set,
            filter,
            asked: 0,
        })
    }

    // How many questions were passed below, up to 4,294,967,295.
    pub fn asked(&self) -> u32
        ensures { result ≡ self.now.asked }
    {
        self.asked
    }

    // Whether the name may have been taken, by its four bits alone. A no is never wrong.
    pub fn may_have(&self, taken: Taken) -> bool
        ensures bits { result ≡ all_set (layer_bits self.now) taken.stop taken.name }
        ensures marked { (layer_meaning self.now).holds taken.stop taken.name ≡ true → result ≡ true }
        ensures never_wrong { result ≡ false → (layer_meaning self.now).holds taken.stop taken.name ≡ false }
    {
        self.filter.has_all(taken)
    }
}
