// The stops with something pending, in the order in which they are sent.
#![tactic(auto)]

ghost use Rattle.std.specs.Prelude.{◌≡◌, []};
ghost use Rattle.law.specs.Pair.{turned};
ghost use Rattle.queue.specs.Lines.{lined, head_of, joined_by, left_by};

use bounded::Bounded;

#[derive(Drop)]
pub struct Queue {
    stops: Bounded<u16, 32>,
}

impl Queue {
    pub fn new() -> Queue
        ensures { lined result ≡ [] }
    {
        Queue {
            stops: Bounded::new(0),
        }
    }

    pub fn head(&self) -> Option<u16>
        ensures { result ≡ head_of (lined self.now) }
    {
        self.stops.as_slice().first().copied()
    }

    // A stop joins at the back, or keeps its place.
    #[tactic(auto, using(crate::proofs::Standing::stands_any))]
    pub fn join(&mut self, stop: u16)
        ensures { lined self.new ≡ joined_by stop (lined self.old) }
    {
        if !self.stops.as_slice().contains(&stop) {
            let _ = self.stops.push(stop);
        }
    }

    // A stop leaves; the others keep their order.
    pub fn leave(&mut self, stop: u16)
        ensures { lined self.new ≡ left_by stop (lined self.old) }
    {
        self.stops.retain(|other| *other != stop);
    }

    // The head goes to the back.
    pub fn turn(&mut self)
        ensures { lined self.new ≡ turned (lined self.old) }
    {
        if let Some(stop) = self.stops.remove(0) {
            let _ = self.stops.push(stop);
        }
    }

    pub fn clear(&mut self)
        ensures { lined self.new ≡ [] }
    {
        self.stops.clear();
    }
}
