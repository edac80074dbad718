// The 32 bytes of a detector's state: prediction, total and mark in four each, the lowest byte first; the rest is zero.
ghost use Rattle.std.specs.Prelude.{◌≡◌};
ghost use Rattle.detector.specs.Detector.{detector_load, detector_store};

use super::state::DetectorState;
use computations::padded;

// Any bytes are those of a state: no prediction is above the largest amount, and no mark past the last time.
impl From<[u8; 32]> for DetectorState {
    ghost from_gives = { λ bytes state. state ≡ detector_load bytes };

    fn from(bytes: [u8; 32]) -> DetectorState {
        let [a, b, c, d, e, f, g, h, i, j, k, l, ..] = bytes;
        DetectorState {
            predicted: u32::from_le_bytes([a, b, c, d]).min(1_048_560),
            total: u32::from_le_bytes([e, f, g, h]),
            mark: u32::from_le_bytes([i, j, k, l]).min(4_000_000_000),
        }
    }
}

impl From<DetectorState> for [u8; 32] {
    ghost from_gives = { λ state bytes. bytes ≡ detector_store state };

    fn from(state: DetectorState) -> [u8; 32] {
        let [a, b, c, d] = state.predicted.to_le_bytes();
        let [e, f, g, h] = state.total.to_le_bytes();
        let [i, j, k, l] = state.mark.to_le_bytes();
        padded([a, b, c, d, e, f, g, h, i, j, k, l])
    }
}
