// Making a pair.
ghost use Rattle.std.specs.Prelude.{MatchResult};
ghost use Rattle.pair.specs.Making.{Makes, Refuses};

use super::Pair;
use computations::Computation;
use link::Link;
use model::Answer;
use names::NameSet;
use node::Node;
use stores::Store;

impl<
    S: Store + Drop,
    N: NameSet + Drop,
    C: Computation,
    T: Store + Drop,
    O: NameSet + Drop,
    D: Computation,
> Pair<S, N, C, T, O, D> {
    // A pair over two stores that are off: the first over node 0's card, the second over node 1's.
    pub fn new(
        collector_store: S,
        collector_names: N,
        spotter_store: T,
        spotter_names: O,
    ) -> Result<Pair<S, N, C, T, O, D>, Answer>
        ensures { MatchResult result (λ v. Makes S.Store N.NameSet C.Computation T.Store O.NameSet D.Computation collector_store spotter_store v) (λ a. Refuses S.Store T.Store collector_store spotter_store a) }
    {
        if collector_store.node() != 0 || spotter_store.node() != 1 {
            return Err(Answer::OutOfRange);
        }
        Ok(Pair {
            collector: Node::new(collector_store, collector_names),
            spotter: Node::new(spotter_store, spotter_names),
            link: Link::new(),
        })
    }
}
