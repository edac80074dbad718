// Making a node, and power returns to it: what is kept beside the rows is made again from them, stops rising.
ghost use Rattle.std.specs.Prelude.{◌≡◌, true, false};
ghost use Rattle.law.specs.Node.{Node as LawNode, restart};
ghost use Rattle.law.specs.Run.{NewNode};
ghost use Rattle.ledger.specs.Kept.{Kept, Blank};
ghost use Rattle.names.specs.Changes.{nothing};
ghost use Rattle.node.specs.Remaking.{Emptied, Wakes, Remakes, RemakesStops, RemakesStop};
ghost use Rattle.node.specs.Shows.{Shows};

use super::{Damaged, Node};
use agenda::{Panel, Timers};
use computations::Computation;
use ledger::{read_row, read_watermark};
use model::Answer;
use names::{NameSet, add_all};
use queue::Queue;
use std::marker::PhantomData;
use stores::{Store, Supply};

impl<S: Store, N: NameSet, C: Computation> Node<S, N, C> {
    // A node over a store that is off. Over a blank store nothing has happened to it yet.
    pub fn new(store: S, mut names: N) -> Node<S, N, C>
        ensures blank { Blank (S.Store.model store) → (n : LawNode) × NewNode n × Shows S.Store N.NameSet C.Computation result n }
        ensures kept { (n : LawNode) → Kept (S.Store.model store) n → n.power.on ≡ false → Shows S.Store N.NameSet C.Computation result n }
        ensures cleared { N.NameSet.meaning result.names ≡ nothing }
    {
        names.clear();
        Node {
            store,
            names,
            timers: Timers::new(),
            panel: Panel::new(),
            queue: Queue::new(),
            watermark: 0,
            computation: PhantomData,
        }
    }

    // Power returns; the write that it fails at leaves what the tear says, or the junk page.
    pub fn restart(&mut self, supply: Supply<'_>) -> Result<Answer, Damaged>
        ensures { Wakes S.Store N.NameSet C.Computation self.old self.new supply.entry.left result (λ free n. restart free supply.entry.left supply.entry.tear supply.entry.junk.now n) }
    {
        let answer = self.store.restart(supply);
        if answer == Answer::Done {
            self.remake()?;
        }
        Ok(answer)
    }

    // Makes all that is kept beside the rows again.
    fn remake(&mut self) -> Result<(), Damaged>
        ensures { Remakes S.Store N.NameSet C.Computation self.old self.new result }
    {
        self.empty();
        self.watermark = read_watermark(&mut self.store).ok_or(Damaged)?;
        self.remake_stops()
    }

    // Nothing is kept beside the rows any more.
    fn empty(&mut self)
        ensures { Emptied S.Store N.NameSet C.Computation self.old self.new }
    {
        self.names.clear();
        self.timers = Timers::new();
        self.panel = Panel::new();
        self.queue.clear();
    }

    fn remake_stops(&mut self) -> Result<(), Damaged>
        ensures { RemakesStops S.Store N.NameSet C.Computation self.old self.new result }
    {
        for stop in 0..32 {
            self.remake_stop(stop)?;
        }
        Ok(())
    }

    fn remake_stop(&mut self, stop: u16) -> Result<(), Damaged>
        ensures { RemakesStop S.Store N.NameSet C.Computation self.old self.new stop result }
    {
        let row = read_row(&mut self.store, stop).ok_or(Damaged)?;
        let _ = add_all(&mut self.names, stop, row.names());
        self.follow(stop, &row);
        Ok(())
    }
}
