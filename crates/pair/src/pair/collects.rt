// What befalls the collector alone.
ghost use Rattle.std.specs.Prelude.{Ok};
ghost use Rattle.model.specs.declared.call.Call.TheVariants.{HandIn, Advance};
ghost use Rattle.pair.specs.Promises.{Steps};

use super::Pair;
use computations::Computation;
use model::{Outcome, Record};
use names::NameSet;
use node::Damaged;
use stores::Store;

impl<S: Store, N: NameSet, C: Computation, T: Store, O: NameSet, D: Computation> Pair<
    S,
    N,
    C,
    T,
    O,
    D,
> {
    // A guide hands in a record.
    pub fn hand_in(&mut self, given: &Record) -> Result<Outcome, Damaged>
        ensures { Steps S.Store N.NameSet C.Computation T.Store O.NameSet D.Computation self.old self.new (HandIn given.now) result }
    {
        self.collector.hand_in(given).map(Outcome::Plain)
    }

    // The collector's watermark advances.
    pub fn advance(&mut self, time: u32) -> Outcome
        ensures { Steps S.Store N.NameSet C.Computation T.Store O.NameSet D.Computation self.old self.new (Advance time) (Ok result) }
    {
        Outcome::Plain(self.collector.advance(time))
    }
}
