// The 32 bytes of a counter's state: the mark in four, the sums in two each, the lowest byte first; the rest is zero.
ghost use Rattle.std.specs.Prelude.{◌≡◌};
ghost use Rattle.counter.specs.Counter.{counter_load, counter_store};

use super::state::CounterState;
use computations::padded;

// Any bytes are those of a state: the mark goes back to the start of its minute, and is no later than the last time.
impl From<[u8; 32]> for CounterState {
    ghost from_gives = { λ bytes state. state ≡ counter_load bytes };

    fn from(bytes: [u8; 32]) -> CounterState {
        let [a, b, c, d, e, f, g, h, i, j, k, l, ..] = bytes;
        let mark = u32::from_le_bytes([a, b, c, d]).min(4_000_000_000);
        let sums = [[e, f], [g, h], [i, j], [k, l]].map(u16::from_le_bytes);
        CounterState {
            mark: 60 * (mark / 60),
            sums,
        }
    }
}

impl From<CounterState> for [u8; 32] {
    ghost from_gives = { λ state bytes. bytes ≡ counter_store state };

    fn from(state: CounterState) -> [u8; 32] {
        let [a, b, c, d] = state.mark.to_le_bytes();
        let [[e, f], [g, h], [i, j], [k, l]] = state.sums.map(u16::to_le_bytes);
        padded([a, b, c, d, e, f, g, h, i, j, k, l])
    }
}
