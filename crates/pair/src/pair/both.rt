// What befalls either node by its number: 0 is the collector, 1 the spotter, and there is no other. A script may hold any
// number, which is judged here; and as the two nodes differ in type, no closure serves both.
ghost use Rattle.model.specs.declared.call.Call.TheVariants.{Fire, Restart};
ghost use Rattle.pair.specs.Promises.{Steps, Wakes};

use super::Pair;
use computations::Computation;
use model::{Answer, Junk, Outcome};
use names::NameSet;
use node::Damaged;
use stores::{Store, Supply};

impl<S: Store, N: NameSet, C: Computation, T: Store, O: NameSet, D: Computation> Pair<
    S,
    N,
    C,
    T,
    O,
    D,
> {
    // A node's earliest due fires.
    pub fn fire(&mut self, node: u8) -> Result<Outcome, Damaged>
        ensures { Steps S.Store N.NameSet C.Computation T.Store O.NameSet D.Computation self.old self.new (Fire node) result }
    {
        match node {
            0 => self.collector.fire().map(Outcome::Plain),
            1 => self.spotter.fire().map(Outcome::Plain),
            _ => Ok(Outcome::Plain(Answer::OutOfRange)),
        }
    }

    // Power returns to a node, for so many writes.
    pub fn restart(
        &mut self,
        node: u8,
        left: u32,
        tear: u8,
        junk: Junk<'_>,
    ) -> Result<Outcome, Damaged>
        ensures { Steps S.Store N.NameSet C.Computation T.Store O.NameSet D.Computation self.old self.new (Restart node left tear junk.entry) result }
    {
        match junk {
            Junk::Fill(fill) => {
                let junk = &[fill; 512];
                self.wake(node, Supply { left, tear, junk })
            }
            Junk::Page(junk) => self.wake(node, Supply { left, tear, junk }),
        }
    }

    fn wake(&mut self, node: u8, supply: Supply<'_>) -> Result<Outcome, Damaged>
        ensures { Wakes S.Store N.NameSet C.Computation T.Store O.NameSet D.Computation self.old self.new node supply.entry.left supply.entry.tear supply.entry.junk.now result }
    {
        match node {
            0 => self.collector.restart(supply).map(Outcome::Plain),
            1 => self.spotter.restart(supply).map(Outcome::Plain),
            _ => Ok(Outcome::Plain(Answer::OutOfRange)),
        }
    }
}
