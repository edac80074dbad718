// The row of a stop, as a type.
ghost use Rattle.std.specs.Prelude.{◌≡◌, length};

mod codec;
mod fields;
mod names;
mod pending;

use bounded::Bounded;
use model::{Name, Production};

// What a stop's row says: the serial of the next production, the computation's state, the pending productions, oldest
// first, and the names of the records taken that are not late yet, in the order of taking.
#[derive(Drop)]
pub struct StopRow {
    next: u32,
    state: [u8; 32],
    pending: Bounded<Production, 4>,
    names: Bounded<Name, 40>,
    ghost sized: { length state ≡ 32 },
}
