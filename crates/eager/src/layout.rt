// The 32 bytes of an eager state: the mark in four, then 1 and the due, or zeros, the lowest byte first; the rest is zero.
ghost use Rattle.std.specs.Prelude.{◌≡◌};
ghost use Rattle.eager.specs.Eager.{eager_load, eager_store};

use super::state::EagerState;
use computations::padded;

// Any bytes are those of a state: neither the mark nor the due is past the last time.
impl From<[u8; 32]> for EagerState {
    ghost from_gives = { λ bytes state. state ≡ eager_load bytes };

    fn from(bytes: [u8; 32]) -> EagerState {
        let [a, b, c, d, some, e, f, g, h, ..] = bytes;
        let mark = u32::from_le_bytes([a, b, c, d]).min(4_000_000_000);
        let due = (some != 0).then_some(u32::from_le_bytes([e, f, g, h]).min(4_000_000_000));
        EagerState { mark, due }
    }
}

impl From<EagerState> for [u8; 32] {
    ghost from_gives = { λ state bytes. bytes ≡ eager_store state };

    fn from(state: EagerState) -> [u8; 32] {
        let [a, b, c, d] = state.mark.to_le_bytes();
        let [e, f, g, h] = state.due.unwrap_or(0).to_le_bytes();
        let some = u8::from(state.due.is_some());
        padded([a, b, c, d, some, e, f, g, h, 0, 0, 0])
    }
}
