// What taking a record, firing a due and clearing a production make of a stop's row, for any computation.
#![tactic(auto)]

mod emits;
mod fires;
mod sums;
mod takes;

pub use fires::fire_row;
pub use sums::{low_in, pending_amount};
pub use takes::take_record;
