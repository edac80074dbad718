// A script of frames is replayed on two new boxes.
ghost use Rattle.std.specs.Prelude.{◌≡◌, IfOk, IfErr, string_bytes};
ghost use Rattle.pair.specs.declared.pair.Stopped.TheVariants.{NoMemory};
ghost use Rattle.boxes.specs.Account.{Accounts};

use super::parts::{CollectorNames, CollectorStore, new_parts};
use counter::Counter;
use detector::Detector;
use hashed_names::HashedNames;
use pair::{Pair, Stopped};
use replay::replay;
use shadow::Shadow;
use std::alloc::Global;

pub type Boxes = Pair<CollectorStore, CollectorNames, Counter, Shadow, HashedNames, Detector>;

// The account of a script: the answer of each event, the fault that ended them, and where the requests for each stop are
// after both boxes were restarted. Nothing but want of memory keeps it from being told.
pub fn account_of(heap: Global, script: &[u8]) -> Result<String, Stopped>
    ensures account { IfOk result (λ t. Accounts script.now (string_bytes t)) }
    ensures only_memory { IfErr result (λ e. e ≡ NoMemory) }
{
    let parts = new_parts(heap)?;
    let mut boxes: Boxes = Pair::new(
        parts.collector_store,
        parts.collector_names,
        parts.spotter_store,
        parts.spotter_names,
    )
    .unwrap();
    replay(heap, &mut boxes, script)
}
