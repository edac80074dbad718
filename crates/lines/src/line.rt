// A call as a line of text.
ghost use Rattle.std.specs.Prelude.{Some};
ghost use Rattle.lines.specs.Lines.{line_of};

use model::{Call, Junk};
use std::fmt;

#[derive(Clone, Copy)]
pub struct Line<'a> {
    pub call: Call<'a>,
}

impl<'a> fmt::Display for Line<'a> {
    ghost output = { λ l. Some (line_of l.call) };

    fn fmt<W: fmt::Write>(&self, f: &mut fmt::Formatter<W>) -> fmt::Result {
        match self.call {
            Call::HandIn { record } => {
                let name = record.name;
                let sender = name.sender;
                let stop = record.stop;
                let serial = name.serial;
                let time = name.time;
                let amount = record.amount;
                write!(
                    f,
                    "hand-in sender {sender} stop {stop} serial {serial} time {time} amount {amount}"
                )
            }
            Call::Advance { time } => write!(f, "advance {time}"),
            Call::Fire { node } => write!(f, "fire {node}"),
            Call::Send => write!(f, "send"),
            Call::Lose { place } => write!(f, "lose {place}"),
            Call::Repeat { place } => write!(f, "repeat {place}"),
            Call::Deliver { place } => write!(f, "deliver {place}"),
            Call::Pass => write!(f, "pass"),
            Call::Restart {
                node,
                left,
                tear,
                junk,
            } => match junk {
                Junk::Fill(fill) => write!(f, "restart {node} left {left} tear {tear} fill {fill}"),
                Junk::Page(_) => write!(f, "restart {node} left {left} tear {tear} page"),
            },
            Call::Show => write!(f, "show"),
            Call::MarkDone { stop, serial } => write!(f, "done stop {stop} serial {serial}"),
        }
    }
}
