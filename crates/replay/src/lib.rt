// A script of frames, replayed on a pair: its calls are made one after another, and what happened is told as lines of text.
#![tactic(auto)]

mod reads;
mod replays;
mod stop_lines;
mod texts;

pub use reads::{Script, read_script};
pub use replays::replay;
