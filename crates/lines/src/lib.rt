// A call as a line of text, to be written and read by people, and a whole script as such lines.
#![tactic(auto)]

mod line;
mod listing;

pub use line::Line;
pub use listing::{fault_line, list_script};
