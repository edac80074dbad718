// The row of the watermark, as a type and as its 512 bytes.
ghost use Rattle.std.specs.Prelude.{◌≡◌, ℕ, ◌^◌, ◌<◌, replicate, IfSome, Some};
ghost use Rattle.std.specs.Option.{option_map};
ghost use Rattle.model.specs.Bytes.{u32_bytes};
ghost use Rattle.model.specs.Limits.{page_bytes};
ghost use Rattle.rows.specs.Layout.{encoded_watermark};

use crate::bytes::{bytes_at, put};

#[derive(Clone, Copy, PartialEq, Eq, Debug)]
pub struct WatermarkRow {
    pub watermark: u32,
}

// The bytes of a watermark. An argument is known to fit its type; a field behind a reference is not.
fn bytes_of(watermark: u32) -> [u8; 4]
    ensures fits { watermark < 2 ^ 32 }
    ensures bytes { result ≡ u32_bytes watermark }
{
    watermark.to_le_bytes()
}

impl WatermarkRow {
    // The row of a node whose watermark has never been raised; its bytes are all zero.
    pub fn first() -> WatermarkRow
        ensures row { result.watermark ≡ 0 }
        ensures zeros { encoded_watermark 0 ≡ replicate page_bytes 0 }
    {
        WatermarkRow { watermark: 0 }
    }

    pub fn encode(&self) -> [u8; 512]
        ensures bytes { result ≡ encoded_watermark self.now.watermark }
        ensures fits { self.now.watermark < 2 ^ 32 }
        ensures once { (w : ℕ) → w < 2 ^ 32 → encoded_watermark w ≡ result → w ≡ self.now.watermark }
    {
        let mut out = [0; 512];
        put(&mut out, 0, &bytes_of(self.watermark));
        out
    }

    // The row that has these bytes; none if no row has.
    pub fn decode(bytes: &[u8; 512]) -> Option<WatermarkRow>
        ensures encoding { IfSome result (λ row. (row.watermark < 2 ^ 32) × (encoded_watermark row.watermark ≡ bytes.now)) }
        ensures decodes { (w : ℕ) → w < 2 ^ 32 → encoded_watermark w ≡ bytes.now → option_map (λ row. row.watermark) result ≡ Some w }
    {
        let row = WatermarkRow {
            watermark: u32::from_le_bytes(bytes_at(bytes, 0)),
        };
        (row.encode() == *bytes).then_some(row)
    }
}
