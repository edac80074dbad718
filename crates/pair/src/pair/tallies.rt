// Where the requests for a stop are: open, pending, landed.
ghost use Rattle.pair.specs.Tallies.{Tells};

use super::{Pair, Tally};
use computations::{Conserving, Totalling};
use names::NameSet;
use node::Damaged;
use stores::Store;

impl<S: Store, N: NameSet, C: Conserving, T: Store, O: NameSet, D: Totalling> Pair<
    S,
    N,
    C,
    T,
    O,
    D,
> {
    // What a stop's minutes at the collector hold, what is pending there, and what the spotter has taken of the stop.
    // There is no telling while a node is off, or of a stop that there is not.
    pub fn tally(&mut self, stop: u16) -> Result<Option<Tally>, Damaged>
        ensures { Tells S.Store N.NameSet C.Computation T.Store O.NameSet D.Computation C.holds D.totals self.old self.new stop result }
    {
        if stop >= 32 || !self.collector.is_on() || !self.spotter.is_on() {
            return Ok(None);
        }
        let held = self.collector.held(stop)?;
        let pending = self.collector.pending_amount(stop)?;
        let landed = self.spotter.total(stop)?;
        Ok(Some(Tally {
            held,
            pending,
            landed,
        }))
    }
}
