// A fact about every node, for those who use one. The code does nothing: the contract carries the fact.
ghost use Rattle.node.specs.Agreeing.{ShowsOne};

use computations::Computation;
use names::NameSet;
use stores::Store;

// All nodes of the law that one value shows agree in rows, watermark and power and, while on, in the queue.
pub fn shows_one<S: Store, N: NameSet, C: Computation>()
    ensures { ShowsOne S.Store N.NameSet C.Computation }
{}
