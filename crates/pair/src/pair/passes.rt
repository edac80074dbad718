// The low watermark goes to the spotter.
ghost use Rattle.model.specs.declared.call.Call.TheVariants.{Pass};
ghost use Rattle.pair.specs.Promises.{Steps};

use super::Pair;
use computations::Computation;
use model::{Answer, Outcome};
use names::NameSet;
use node::Damaged;
use stores::Store;

impl<S: Store, N: NameSet, C: Computation, T: Store, O: NameSet, D: Computation> Pair<
    S,
    N,
    C,
    T,
    O,
    D,
> {
    // The spotter's watermark becomes the low watermark: nothing that could still arrive is older.
    pub fn pass(&mut self) -> Result<Outcome, Damaged>
        ensures { Steps S.Store N.NameSet C.Computation T.Store O.NameSet D.Computation self.old self.new Pass result }
    {
        if !self.collector.is_on() || !self.spotter.is_on() {
            return Ok(Outcome::Plain(Answer::Off));
        }
        let low = self.collector.low_watermark()?;
        Ok(Outcome::Plain(self.spotter.advance(low)))
    }
}
