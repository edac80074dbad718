// The 32 bytes of a state. The laws hold on them as well, and there every 32 bytes are sound: a row needs to hold no more.
ghost use Rattle.std.specs.Prelude.{◌≡◌, ◌++◌, replicate};
ghost use Rattle.model.specs.Computation.{Lawful, Conserves, Totals, StateBytes};
ghost use Rattle.model.specs.OnBytes.{on_bytes};

use super::computation::Computation;
use super::weight::{Conserving, Totalling};

pub fn lawful_on_bytes<C: Computation>()
    ensures { Lawful (on_bytes C.operations) StateBytes }
{}

pub fn conserves_on_bytes<C: Conserving>()
    ensures { Conserves (on_bytes C.operations) StateBytes (λ bs. C.holds (C.operations.load bs)) }
{}

pub fn totals_on_bytes<C: Totalling>()
    ensures { Totals (on_bytes C.operations) StateBytes (λ bs. C.totals (C.operations.load bs)) }
{}

// Twelve bytes, and zeros behind them.
pub fn padded(front: [u8; 12]) -> [u8; 32]
    ensures { result ≡ front ++ replicate 20 0 }
{
    let mut bytes = [0; 32];
    bytes[..12].copy_from_slice(&front);
    bytes
}
