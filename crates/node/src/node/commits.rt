// The steps that the calls are made of: reading a stop's row, asking for a name, committing a row.
ghost use Rattle.std.specs.Prelude.{◌≡◌};
ghost use Rattle.rows.specs.Meaning.{row_of};
ghost use Rattle.node.specs.Promises.{Read, Asked, Commits, Followed};

use super::{Damaged, Node};
use computations::{Computation, due_in};
use ledger::{commit_row, read_row};
use model::{Answer, Name};
use names::{NameSet, Taken};
use rows::StopRow;
use stores::Store;
use upkeep::{rename, requeue};

impl<S: Store, N: NameSet, C: Computation> Node<S, N, C> {
    pub fn is_on(&self) -> bool
        ensures { result ≡ (S.Store.model self.now.store).power.on }
    {
        self.store.is_on()
    }

    // Inlined, as a row is large: handed on by a call it would be moved once more.
    #[inline(always)]
    pub(crate) fn row(&mut self, stop: u16) -> Result<StopRow, Damaged>
        ensures { Read S.Store N.NameSet C.Computation self.old self.new stop result }
    {
        read_row(&mut self.store, stop).ok_or(Damaged)
    }

    pub(crate) fn has_seen(&mut self, stop: u16, name: Name) -> bool
        ensures { Asked S.Store N.NameSet C.Computation self.old self.new stop name result }
    {
        self.names.has(Taken { stop, name })
    }

    // The only commit of a stop's row: once it is done, all that is kept beside the rows follows. Of the row's names,
    // those below a floor may have fallen, and one may have come.
    pub(crate) fn commit(
        &mut self,
        stop: u16,
        row: &StopRow,
        floor: Option<u32>,
        come: Option<Name>,
    ) -> Answer
        ensures { Commits S.Store N.NameSet C.Computation self.old self.new stop (row_of row.now) floor come result }
    {
        let answer = commit_row(&mut self.store, stop, row);
        if answer == Answer::Done {
            rename(&mut self.names, stop, floor, come);
            self.follow(stop, row);
        }
        answer
    }

    // Timers, panel and queue follow a stop's row.
    pub(crate) fn follow(&mut self, stop: u16, row: &StopRow)
        ensures { Followed S.Store N.NameSet C.Computation self.old self.new stop (row_of row.now) }
    {
        self.timers.set(stop, due_in::<C>(row.state()));
        self.panel.set(stop, row.oldest());
        requeue(&mut self.queue, stop, row);
    }
}
