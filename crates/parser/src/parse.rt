// Reads a line as a call: a word that names the call, and then its numbers.
ghost use Rattle.std.specs.Prelude.{◌≡◌, Some, Ok};
ghost use Rattle.frames.specs.declared.kind.Kind.TheVariants as of_kind;
ghost use Rattle.lines.specs.Lines.{line_of};
ghost use Rattle.parser.specs.Lines.{Sayable};
ghost use Rattle.parser.specs.Left.{left};
ghost use Rattle.parser.specs.Parsed.{answered, call_from, kind_named, parsed, took};

use super::field::Field;
use super::taking::Words;
use super::words::{Misread, Wanted};
use frames::Kind;
use model::{Call, Junk, Name, Record};

fn kind_named(word: &[u8]) -> Option<Kind>
    ensures { result ≡ kind_named word.now }
{
    match word {
        b"hand-in" => Some(Kind::HandIn),
        b"advance" => Some(Kind::Advance),
        b"fire" => Some(Kind::Fire),
        b"send" => Some(Kind::Send),
        b"lose" => Some(Kind::Lose),
        b"repeat" => Some(Kind::Repeat),
        b"deliver" => Some(Kind::Deliver),
        b"pass" => Some(Kind::Pass),
        b"restart" => Some(Kind::Restart),
        b"show" => Some(Kind::Show),
        b"done" => Some(Kind::MarkDone),
        _ => None,
    }
}

fn hand_in<'a>(words: &mut Words<'a>) -> Result<Call<'a>, Misread<'a>>
    ensures { took result (left words.new) ≡ call_from of_kind.HandIn (left words.old) }
{
    let sender = words.named(Field::Sender)? as u16;
    let stop = words.named(Field::Stop)? as u16;
    let serial = words.named(Field::Serial)?;
    let time = words.named(Field::Time)?;
    let amount = words.named(Field::Amount)? as u16;
    let name = Name {
        sender,
        serial,
        time,
    };
    Ok(Call::HandIn {
        record: Record { name, stop, amount },
    })
}

fn restart<'a>(words: &mut Words<'a>) -> Result<Call<'a>, Misread<'a>>
    ensures { took result (left words.new) ≡ call_from of_kind.Restart (left words.old) }
{
    let node = words.value(Field::Node)? as u8;
    let left = words.named(Field::Left)?;
    let tear = words.named(Field::Tear)? as u8;
    let fill = words.named(Field::Fill)? as u8;
    let junk = Junk::Fill(fill);
    Ok(Call::Restart {
        node,
        left,
        tear,
        junk,
    })
}

fn mark_done<'a>(words: &mut Words<'a>) -> Result<Call<'a>, Misread<'a>>
    ensures { took result (left words.new) ≡ call_from of_kind.MarkDone (left words.old) }
{
    let stop = words.named(Field::Stop)? as u16;
    let serial = words.named(Field::Serial)?;
    Ok(Call::MarkDone { stop, serial })
}

fn call_of_kind<'a>(words: &mut Words<'a>, kind: Kind) -> Result<Call<'a>, Misread<'a>>
    ensures { took result (left words.new) ≡ call_from kind (left words.old) }
{
    match kind {
        Kind::HandIn => hand_in(words),
        Kind::Advance => Ok(Call::Advance {
            time: words.value(Field::Time)?,
        }),
        Kind::Fire => Ok(Call::Fire {
            node: words.value(Field::Node)? as u8,
        }),
        Kind::Send => Ok(Call::Send),
        Kind::Lose => Ok(Call::Lose {
            place: words.value(Field::Place)? as u8,
        }),
        Kind::Repeat => Ok(Call::Repeat {
            place: words.value(Field::Place)? as u8,
        }),
        Kind::Deliver => Ok(Call::Deliver {
            place: words.value(Field::Place)? as u8,
        }),
        Kind::Pass => Ok(Call::Pass),
        Kind::Restart => restart(words),
        Kind::Show => Ok(Call::Show),
        Kind::MarkDone => mark_done(words),
    }
}

// The call that a line says; nothing if the line has no words, or only a comment.
pub fn parse_line<'a>(line: &'a [u8]) -> Result<Option<Call<'a>>, Misread<'a>>
    ensures says { answered result ≡ parsed line.now }
    ensures back { (c : Call) → Sayable c → line.now ≡ line_of c → answered result ≡ Ok (Some c) }
{
    let mut words = Words { rest: line };
    let word = words.word();
    if word.is_empty() {
        return Ok(None);
    }
    let kind = kind_named(word).ok_or(Misread {
        word,
        wanted: Wanted::Call,
    })?;
    let call = call_of_kind(&mut words, kind)?;
    let word = words.word();
    if !word.is_empty() {
        return Err(Misread {
            word,
            wanted: Wanted::End,
        });
    }
    Ok(Some(call))
}
