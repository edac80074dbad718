// The rows of a node as types, over any store. Reading and writing go by the encoding of a row; all reasoning about
// bytes ends here.
#![tactic(auto)]

mod paged;
mod stop_rows;
mod watermark;

pub use stop_rows::{commit_row, read_row};
pub use watermark::{commit_watermark, read_watermark};
