// Hands out the frames of a script one after another.
ghost use Rattle.std.specs.Prelude.{◌≡◌, ◌-◌, ◌<◌, ◌≤◌, length, drop, IfOk, OnSome, Some};
ghost use Rattle.std.specs.Iterator.{at_most};
ghost use Rattle.frames.specs.Handed.{Begun, EventOffset, IfFramed, Offset, Reads, Whole, handed, handed_call, place_of, script_of, shown};
ghost use Rattle.frames.specs.Reading.{call_at, first_frame, next_place, stands_at};

use super::frame::Frame;
use super::kind::Kind;
use model::{Call, Fault};

// `Placed`, `Event` and `Misfit` are three, since each names what it places: one struct over a type would lose the name.

// A frame, and the offset of its header.
#[derive(Clone, Copy)]
pub struct Placed<'a> {
    pub offset: usize,
    pub frame: Frame<'a>,
}

// A call, and the offset of its frame.
#[derive(Clone, Copy)]
pub struct Event<'a> {
    pub offset: usize,
    pub call: Call<'a>,
}

// What is wrong with a frame, and the offset of its header.
#[derive(Clone, Copy)]
pub struct Misfit {
    pub fault: Fault,
    pub offset: usize,
}

#[derive(Drop)]
pub struct Reader<'a> {
    script: &'a [u8],
    at: usize,
}

impl<'a> Reader<'a> {
    pub fn new(script: &'a [u8]) -> Reader<'a>
        ensures script { script_of result ≡ script.now }
        ensures place { place_of result ≡ 0 }
    {
        Reader { script, at: 0 }
    }

    // The next frame or what is wrong with it; `None` at the end. Nothing is read past a fault, so the end follows it.
    pub fn next_frame(&mut self) -> Option<Result<Placed<'a>, Misfit>>
        ensures stands { handed result ≡ stands_at (script_of self.old) (place_of self.old) }
        ensures offset { Offset (place_of self.old) result }
        ensures whole { IfFramed result (Whole (drop (place_of self.old) (script_of self.old))) }
        ensures script { script_of self.new ≡ script_of self.old }
        ensures place { place_of self.new ≡ next_place (script_of self.old) (place_of self.old) }
        ensures forward { OnSome result ((place_of self.old < place_of self.new) × (place_of self.new ≤ length (script_of self.old))) }
    {
        let offset = self.at;
        if offset >= self.script.len() {
            return None;
        }
        let read = first_frame(&self.script[offset..]);
        self.at = match &read {
            Ok(frame) => offset + 4 + frame.body().len(),
            Err(_) => self.script.len(),
        };
        let read = read.map(|frame| Placed { offset, frame });
        Some(read.map_err(|fault| Misfit { fault, offset }))
    }

    // The same, decoded.
    pub fn next_call(&mut self) -> Option<Result<Event<'a>, Misfit>>
        ensures call { handed_call result ≡ call_at (script_of self.old) (place_of self.old) }
        ensures offset { EventOffset (place_of self.old) result }
        ensures script { script_of self.new ≡ script_of self.old }
        ensures place { place_of self.new ≡ next_place (script_of self.old) (place_of self.old) }
        ensures forward { OnSome result ((place_of self.old < place_of self.new) × (place_of self.new ≤ length (script_of self.old))) }
    {
        let next = self.next_frame()?;
        Some(next.and_then(|Placed { offset, frame }| {
            let call = frame.call().map(|call| Event { offset, call });
            call.map_err(|fault| Misfit { fault, offset })
        }))
    }
}

// The calls of a script with their offsets, up to its end or its first fault.
impl<'a> Iterator for Reader<'a> {
    type Item = Result<Event<'a>, Misfit>;

    ghost next_gives = { Reads };

    ghost remaining = { λ s. at_most (length (script_of s) - place_of s) };

    fn next(&mut self) -> Option<Result<Event<'a>, Misfit>> {
        self.next_call()
    }
}

// The frame at the front of what is left of a script.
fn first_frame<'a>(rest: &'a [u8]) -> Result<Frame<'a>, Fault>
    ensures stands { Some (shown result) ≡ first_frame rest.now }
    ensures whole { IfOk result (Begun rest.now) }
{
    let Some((header, rest)) = rest.split_first_chunk::<4>() else {
        return Err(Fault::HeaderShort);
    };
    let [l0, l1, k0, k1] = *header;
    let kind = Kind::try_from(u16::from_le_bytes([k0, k1]))?;
    let length = usize::from(u16::from_le_bytes([l0, l1]));
    if !kind.fits(length) {
        return Err(Fault::WrongLength);
    }
    let Some((body, _)) = rest.split_at_checked(length) else {
        return Err(Fault::BodyShort);
    };
    Ok(Frame::new(kind, body))
}
