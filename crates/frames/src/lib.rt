// A script is a file of frames, one for each call: length of the body (2 bytes), kind (2), body, all little-endian.
//
// The reader borrows the script and hands out each frame with its offset, up to the first fault. A frame holds its
// body as it stands in the script; decoding it into a call is a step of its own, and so is writing a call as a frame.
// Reading what was written gives the call back, wherever the frame stands and whatever stands around it, and writing
// what was read gives the bytes back.
#![tactic(auto)]

mod decode;
mod frame;
mod kind;
mod reader;
mod writer;

pub use frame::Frame;
pub use kind::Kind;
pub use reader::{Event, Misfit, Placed, Reader};
pub use writer::write_frame;
