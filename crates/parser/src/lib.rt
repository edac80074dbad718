// Reads a line of text as a call. What was printed of a call is read back as that call.
#![tactic(auto)]

mod field;
mod numeral;
mod parse;
mod taking;
mod words;

pub use field::Field;
pub use parse::parse_line;
pub use words::{Misread, Wanted};
