// The vocabulary of the two boxes: what is handed in, what is sent, what is asked and what is answered.
//
// Each type here is plain data. The folder specs/ beside it holds the definitions that more than one crate speaks of:
// the number of each answer, what a cut leaves in a store, what a computation owes, the order of admission, a row.
#![tactic(auto)]

mod answer;
mod call;
mod record;

pub use answer::{Answer, CutPoint, Fault, Outcome, Verdict};
pub use call::{Call, Junk};
pub use record::{Message, Name, Production, Record};
