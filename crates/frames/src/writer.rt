// Writes a call as a frame.
ghost use Rattle.std.specs.Prelude.{◌≡◌, true, length, take, IfOk, Some};
ghost use Rattle.model.specs.declared.call.Call.TheVariants as ask;
ghost use Rattle.model.specs.declared.call.Junk.TheVariants.{Fill};
ghost use Rattle.frames.specs.Calls.{body_of, call_of, frame_of};
ghost use Rattle.frames.specs.Frames.{framed};
ghost use Rattle.frames.specs.Kinds.{fits};
ghost use Rattle.frames.specs.Writing.{ReadBack, buffer_after, write_answer};
ghost use Rattle.frames.specs.declared.kind.Kind.TheVariants as kind;

use super::kind::Kind;
use model::{Call, Fault, Junk, Record};

fn hand_in(record: Record) -> [u8; 14]
    ensures body { body_of (ask.HandIn «record») ≡ Some result }
    ensures back { call_of kind.HandIn result ≡ ask.HandIn «record» }
{
    let [n0, n1] = record.name.sender.to_le_bytes();
    let [p0, p1] = record.stop.to_le_bytes();
    let [s0, s1, s2, s3] = record.name.serial.to_le_bytes();
    let [t0, t1, t2, t3] = record.name.time.to_le_bytes();
    let [a0, a1] = record.amount.to_le_bytes();
    [n0, n1, p0, p1, s0, s1, s2, s3, t0, t1, t2, t3, a0, a1]
}

fn advance(time: u32) -> [u8; 4]
    ensures body { body_of (ask.Advance time) ≡ Some result }
    ensures back { call_of kind.Advance result ≡ ask.Advance time }
{
    time.to_le_bytes()
}

fn restart(node: u8, left: u32, tear: u8, fill: u8) -> [u8; 7]
    ensures body { body_of (ask.Restart node left tear (Fill fill)) ≡ Some result }
    ensures back { call_of kind.Restart result ≡ ask.Restart node left tear (Fill fill) }
{
    let [l0, l1, l2, l3] = left.to_le_bytes();
    [node, l0, l1, l2, l3, tear, fill]
}

fn mark_done(stop: u16, serial: u32) -> [u8; 6]
    ensures body { body_of (ask.MarkDone stop serial) ≡ Some result }
    ensures back { call_of kind.MarkDone result ≡ ask.MarkDone stop serial }
{
    let [p0, p1] = stop.to_le_bytes();
    let [s0, s1, s2, s3] = serial.to_le_bytes();
    [p0, p1, s0, s1, s2, s3]
}

// Tests the room before it writes the header and the body.
fn put(kind: Kind, body: &[u8], buffer: &mut [u8]) -> Result<usize, Fault>
    requires { fits kind (length body.now) ≡ true }
    ensures answer { result ≡ write_answer (Some (framed kind body.now)) (length buffer.old) }
    ensures after { buffer.new ≡ buffer_after (Some (framed kind body.now)) buffer.old }
    ensures read_back { IfOk result (λ n. ReadBack (call_of kind body.now) (take n buffer.new)) }
{
    let size = 4 + body.len();
    if buffer.len() < size {
        return Err(Fault::BufferTooSmall);
    }
    let [l0, l1] = (body.len() as u16).to_le_bytes();
    let [k0, k1] = u16::from(kind).to_le_bytes();
    buffer[0..4].copy_from_slice(&[l0, l1, k0, k1]);
    buffer[4..size].copy_from_slice(body);
    Ok(size)
}

// Writes a call as a frame at the front of a buffer, and says how many bytes it took. A restart that lends a whole page
// of junk has no frame: its body would have a length that is wrong for the kind. The buffer is the caller's, since
// `BufferTooSmall` is a fault of the format and nothing here allocates.
pub fn write_frame(call: Call<'_>, buffer: &mut [u8]) -> Result<usize, Fault>
    ensures answer { result ≡ write_answer (frame_of call.entry) (length buffer.old) }
    ensures after { buffer.new ≡ buffer_after (frame_of call.entry) buffer.old }
    ensures read_back { IfOk result (λ n. ReadBack call.entry (take n buffer.new)) }
{
    match call {
        Call::HandIn { record } => put(Kind::HandIn, &hand_in(record), buffer),
        Call::Advance { time } => put(Kind::Advance, &advance(time), buffer),
        Call::Fire { node } => put(Kind::Fire, &[node], buffer),
        Call::Send => put(Kind::Send, &[], buffer),
        Call::Lose { place } => put(Kind::Lose, &[place], buffer),
        Call::Repeat { place } => put(Kind::Repeat, &[place], buffer),
        Call::Deliver { place } => put(Kind::Deliver, &[place], buffer),
        Call::Pass => put(Kind::Pass, &[], buffer),
        Call::Restart {
            node,
            left,
            tear,
            junk,
        } => match junk {
            Junk::Fill(fill) => put(Kind::Restart, &restart(node, left, tear, fill), buffer),
            Junk::Page(_) => Err(Fault::WrongLength),
        },
        Call::Show => put(Kind::Show, &[], buffer),
        Call::MarkDone { stop, serial } => put(Kind::MarkDone, &mark_done(stop, serial), buffer),
    }
}
