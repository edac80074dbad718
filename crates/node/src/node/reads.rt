// What a node is asked without changing anything.
ghost use Rattle.std.specs.Prelude.{◌≡◌, ◌<◌, true, map};
ghost use Rattle.model.specs.Limits.{stops};
ghost use Rattle.model.specs.OnBytes.{on_bytes};
ghost use Rattle.law.specs.Lists.{total};
ghost use Rattle.law.specs.Node.{Node as LawNode};
ghost use Rattle.law.specs.Pair.{turned_node};
ghost use Rattle.model.specs.Row.{oldest};
ghost use Rattle.law.specs.Stops.{greatest, lowest};
ghost use Rattle.queue.specs.Lines.{head_of};
ghost use Rattle.node.specs.Promises.{Finds, WhileOn};
ghost use Rattle.node.specs.Shows.{Shows};

use super::{Damaged, Node};
use computations::{Computation, Conserving, Totalling, held_in, total_in};
use model::Production;
use names::NameSet;
use steps::{low_in, pending_amount};
use stores::Store;

impl<S: Store, N: NameSet, C: Computation> Node<S, N, C> {
    // The stop whose turn it is to send.
    pub fn queue_head(&self) -> Option<u16>
        ensures { WhileOn S.Store N.NameSet C.Computation self.now (λ n. result ≡ head_of n.queue) }
    {
        self.queue.head()
    }

    // The head of the queue goes to its back.
    pub fn turn(&mut self)
        ensures { (n : LawNode) → Shows S.Store N.NameSet C.Computation self.old n → Shows S.Store N.NameSet C.Computation self.new (turned_node n) }
    {
        self.queue.turn();
    }

    // A stop's oldest pending production.
    pub fn oldest(&self, stop: u16) -> Option<Production>
        ensures { WhileOn S.Store N.NameSet C.Computation self.now (λ n. stop < stops → result ≡ oldest (n.row stop).pending) }
    {
        self.panel.at(stop)
    }

    // Of each stop's oldest pending production the one with the greatest amount, with its stop; ties go to the lowest.
    pub fn greatest(&self) -> Option<(u16, Production)>
        ensures { WhileOn S.Store N.NameSet C.Computation self.now (λ n. result ≡ greatest n.row) }
    {
        self.panel.first()
    }

    // The least of the watermark, all pending times and all dues, from the rows.
    pub fn low_watermark(&mut self) -> Result<u32, Damaged>
        ensures { Finds S.Store N.NameSet C.Computation self.old self.new (λ n. n.power.on ≡ true) result (λ n. lowest (on_bytes C.operations) n.row n.w) }
    {
        let mut low = self.watermark;
        for stop in 0..32 {
            low = low_in::<C>(&self.row(stop)?, low);
        }
        Ok(low)
    }

    // How much is pending at a stop.
    pub fn pending_amount(&mut self, stop: u16) -> Result<u32, Damaged>
        ensures { Finds S.Store N.NameSet C.Computation self.old self.new (λ n. (n.power.on ≡ true) × (stop < stops)) result (λ n. total (map (λ p. p.amount) (n.row stop).pending)) }
    {
        Ok(pending_amount(&self.row(stop)?))
    }
}

impl<S: Store, N: NameSet, C: Conserving> Node<S, N, C> {
    // How much a stop's state holds.
    pub fn held(&mut self, stop: u16) -> Result<u32, Damaged>
        ensures { Finds S.Store N.NameSet C.Computation self.old self.new (λ n. (n.power.on ≡ true) × (stop < stops)) result (λ n. C.holds (C.operations.load (n.row stop).state)) }
    {
        Ok(held_in::<C>(self.row(stop)?.state()))
    }
}

impl<S: Store, N: NameSet, C: Totalling> Node<S, N, C> {
    // The total of what a stop has taken.
    pub fn total(&mut self, stop: u16) -> Result<u32, Damaged>
        ensures { Finds S.Store N.NameSet C.Computation self.old self.new (λ n. (n.power.on ≡ true) × (stop < stops)) result (λ n. C.totals (C.operations.load (n.row stop).state)) }
    {
        Ok(total_in::<C>(self.row(stop)?.state()))
    }
}
