// The eleven calls by their names, one after another.
ghost use Rattle.pair.specs.Promises.{Steps};

use super::Pair;
use computations::Computation;
use model::{Call, Outcome};
use names::NameSet;
use node::Damaged;
use stores::Store;

impl<S: Store, N: NameSet, C: Computation, T: Store, O: NameSet, D: Computation> Pair<
    S,
    N,
    C,
    T,
    O,
    D,
> {
    pub fn call(&mut self, call: &Call<'_>) -> Result<Outcome, Damaged>
        ensures { Steps S.Store N.NameSet C.Computation T.Store O.NameSet D.Computation self.old self.new call.now result }
    {
        match *call {
            Call::HandIn { record } => self.hand_in(&record),
            Call::Advance { time } => Ok(self.advance(time)),
            Call::Fire { node } => self.fire(node),
            Call::Send => Ok(self.send()),
            Call::Lose { place } => Ok(self.lose(place)),
            Call::Repeat { place } => Ok(self.repeat(place)),
            Call::Deliver { place } => self.deliver(place),
            Call::Pass => self.pass(),
            Call::Restart {
                node,
                left,
                tear,
                junk,
            } => self.restart(node, left, tear, junk),
            Call::Show => Ok(self.show()),
            Call::MarkDone { stop, serial } => self.mark_done(stop, serial),
        }
    }
}
