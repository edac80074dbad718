// A list of calls, one after another: what the law says of every run is promised here.
ghost use Rattle.std.specs.Prelude.{IfOk, IfErr};
ghost use Rattle.pair.specs.Runs.{Ran, Carries, Stops};

use super::{Pair, Stopped};
use computations::Computation;
use model::{Call, Outcome};
use names::NameSet;
use std::alloc::Global;
use stores::Store;

impl<S: Store, N: NameSet, C: Computation, T: Store, O: NameSet, D: Computation> Pair<
    S,
    N,
    C,
    T,
    O,
    D,
> {
    // Makes the calls in order and hands out their outcomes. Room for these is had first, so want of memory stops the
    // list before anything has happened.
    pub fn run(&mut self, heap: Global, calls: &[Call<'_>]) -> Result<Vec<Outcome>, Stopped>
        ensures one_after_another { IfOk result (λ o. Ran S.Store N.NameSet C.Computation T.Store O.NameSet D.Computation self.old calls.now o.items self.new) }
        ensures keeps_the_law { IfOk result (λ o. Carries S.Store N.NameSet C.Computation T.Store O.NameSet D.Computation self.old self.new calls.now o.items) }
        ensures stops { IfErr result (λ e. Stops S.Store N.NameSet C.Computation T.Store O.NameSet D.Computation self.old self.new e) }
    {
        let mut outcomes = Vec::with_capacity(heap, calls.len())?;
        for call in calls {
            let outcome = self.call(call)?;
            outcomes.push_reserved(outcome);
        }
        Ok(outcomes)
    }
}
