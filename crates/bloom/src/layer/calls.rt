// The calls of the layer as a name set.
ghost use Rattle.std.specs.Prelude.{◌≡◌, false};
ghost use Rattle.names.specs.Changes.{Asked, Added, Dropped, Cleared};
ghost use Rattle.bloom.specs.Layer.{layer_meaning, layer_bits, count_after, bits_after};
ghost use Rattle.std.proofs.Common.{rules};

use super::Bloom;
use model::Answer;
use names::{NameSet, Taken};

impl<N: NameSet> NameSet for Bloom<N> {
    ghost meaning = { layer_meaning };

    ghost counted = { Prim.search rules };

    ghost bounded = { Prim.search rules };

    // Passed below, and counted, exactly if the four bits of the name are set.
    fn has(&mut self, taken: Taken) -> bool
        ensures asks { Asked (layer_meaning self.old) taken.stop taken.name result (layer_meaning self.new) }
        ensures count { self.new.asked ≡ count_after (layer_bits self.old) self.old.asked taken.stop taken.name }
        ensures bits { layer_bits self.new ≡ layer_bits self.old }
    {
        if !self.filter.has_all(taken) {
            return false;
        }
        self.asked = self.asked.saturating_add(1);
        self.set.has(taken)
    }

    // Passed below; the four bits of the name are set when it was done.
    fn add(&mut self, taken: Taken) -> Answer
        ensures adds { Added (layer_meaning self.old) taken.stop taken.name result (layer_meaning self.new) }
        ensures count { self.new.asked ≡ self.old.asked }
        ensures bits { layer_bits self.new ≡ bits_after (layer_bits self.old) result taken.stop taken.name }
    {
        let answer = self.set.add(taken);
        if let Answer::Done = answer {
            self.filter.set_all(taken);
        }
        answer
    }

    // Clears no bit, since other names may share it.
    fn drop_below(&mut self, stop: u16, floor: u32)
        ensures drops { Dropped (layer_meaning self.old) stop floor (layer_meaning self.new) }
        ensures count { self.new.asked ≡ self.old.asked }
        ensures bits { layer_bits self.new ≡ layer_bits self.old }
    {
        self.set.drop_below(stop, floor);
    }

    // Clears all bits, and keeps the count.
    fn clear(&mut self)
        ensures clears { Cleared (layer_meaning self.new) }
        ensures count { self.new.asked ≡ self.old.asked }
        ensures bits { layer_bits self.new ≡ (λ _. false) }
    {
        self.set.clear();
        self.filter.clear();
    }
}
