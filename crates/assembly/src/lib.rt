// A script from lines of text: a frame for each line that says a call, in their order, or the first line that is wrong.
#![tactic(auto)]

mod failure;
mod script;

pub use failure::Failure;
pub use script::assemble;
