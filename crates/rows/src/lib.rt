// The bytes of a row: a stop's row and the watermark's row as types, and their 512 bytes.
//
// `encode` gives exactly the defined bytes, and `decode` gives a row back exactly if it has these bytes, so that whoever
// reads and writes rows speaks of what they say and never of bytes. The steps by which a row changes are equations.
#![tactic(auto)]

mod bytes;
mod entries;
mod stop_row;
mod watermark_row;

pub use stop_row::StopRow;
pub use watermark_row::WatermarkRow;
