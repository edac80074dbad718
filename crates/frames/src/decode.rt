// From the body of a frame to the call that it stands for. Any body of the right length is a call; whether its numbers
// are in range is for the call to judge.
ghost use Rattle.std.specs.Prelude.{◌≡◌, IfOk, Some};
ghost use Rattle.frames.specs.Calls.{decoded, frame_of};
ghost use Rattle.frames.specs.Frames.{frame_body, frame_kind, framed};

use super::frame::Frame;
use model::{Call, Fault, Junk, Name, Record};

impl<'a> Frame<'a> {
    // The call that the frame stands for. A frame that the reader hands out always has one.
    pub fn call(&self) -> Result<Call<'a>, Fault>
        ensures call { result ≡ decoded (frame_kind self.now) (frame_body self.now) }
        ensures writes_back { IfOk result (λ c. frame_of c ≡ Some (framed (frame_kind self.now) (frame_body self.now))) }
    {
        match *self {
            Frame::HandIn(&[n0, n1, p0, p1, s0, s1, s2, s3, t0, t1, t2, t3, a0, a1]) => {
                let name = Name {
                    sender: u16::from_le_bytes([n0, n1]),
                    serial: u32::from_le_bytes([s0, s1, s2, s3]),
                    time: u32::from_le_bytes([t0, t1, t2, t3]),
                };
                let stop = u16::from_le_bytes([p0, p1]);
                let amount = u16::from_le_bytes([a0, a1]);
                Ok(Call::HandIn {
                    record: Record { name, stop, amount },
                })
            }
            Frame::Advance(&[t0, t1, t2, t3]) => Ok(Call::Advance {
                time: u32::from_le_bytes([t0, t1, t2, t3]),
            }),
            Frame::Fire(&[node]) => Ok(Call::Fire { node }),
            Frame::Send([]) => Ok(Call::Send),
            Frame::Lose(&[place]) => Ok(Call::Lose { place }),
            Frame::Repeat(&[place]) => Ok(Call::Repeat { place }),
            Frame::Deliver(&[place]) => Ok(Call::Deliver { place }),
            Frame::Pass([]) => Ok(Call::Pass),
            Frame::Restart(&[node, l0, l1, l2, l3, tear, fill]) => Ok(Call::Restart {
                node,
                left: u32::from_le_bytes([l0, l1, l2, l3]),
                tear,
                junk: Junk::Fill(fill),
            }),
            Frame::Show([]) => Ok(Call::Show),
            Frame::MarkDone(&[p0, p1, s0, s1, s2, s3]) => Ok(Call::MarkDone {
                stop: u16::from_le_bytes([p0, p1]),
                serial: u32::from_le_bytes([s0, s1, s2, s3]),
            }),
            _ => Err(Fault::WrongLength),
        }
    }
}
