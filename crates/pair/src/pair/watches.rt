// What befalls the spotter alone.
ghost use Rattle.std.specs.Prelude.{Ok};
ghost use Rattle.model.specs.declared.call.Call.TheVariants.{Show, MarkDone};
ghost use Rattle.pair.specs.Promises.{Steps};

use super::Pair;
use computations::Computation;
use model::{Answer, Outcome};
use names::NameSet;
use node::Damaged;
use stores::Store;

impl<S: Store, N: NameSet, C: Computation, T: Store, O: NameSet, D: Computation> Pair<
    S,
    N,
    C,
    T,
    O,
    D,
> {
    // The hall is told where the greatest crowd is.
    pub fn show(&self) -> Outcome
        ensures { Steps S.Store N.NameSet C.Computation T.Store O.NameSet D.Computation self.now self.now Show (Ok result) }
    {
        if !self.spotter.is_on() {
            return Outcome::Plain(Answer::Off);
        }
        match self.spotter.greatest() {
            Some((stop, production)) => Outcome::Shown { stop, production },
            None => Outcome::Plain(Answer::Nothing),
        }
    }

    // The hall has dealt with a production that was shown.
    pub fn mark_done(&mut self, stop: u16, serial: u32) -> Result<Outcome, Damaged>
        ensures { Steps S.Store N.NameSet C.Computation T.Store O.NameSet D.Computation self.old self.new (MarkDone stop serial) result }
    {
        self.spotter.clear(stop, serial).map(Outcome::Plain)
    }
}
