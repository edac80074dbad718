// One trial: a row of ones, then a commit that makes its last byte nine, with so much power.
use model::Answer;
use std::fmt;
use stores::{Page, Store, Supply, change_byte};

const ROW: usize = 5;

const LAST: usize = 511;

const NINE: u8 = 9;

const OLD: Page = [1; 512];

const JUNK: Page = [238; 512];

#[derive(Clone, Copy)]
pub enum Row {
    Old,
    New,
    Other,
}

#[derive(Clone, Copy)]
pub struct Seen {
    answer: Answer,
    on: bool,
    owed: u32,
    row: Row,
}

impl fmt::Display for Seen {
    fn fmt<W: fmt::Write>(&self, f: &mut fmt::Formatter<W>) -> fmt::Result {
        match self.answer {
            Answer::Cut(at) => write!(f, "9 at {}/{}/{:<2}", at.node, at.row, at.page)?,
            answer => write!(f, "{:<11}", u8::from(answer))?,
        }
        let on = if self.on { "on " } else { "off" };
        let row = match self.row {
            Row::Old => "old",
            Row::New => "new",
            Row::Other => "neither",
        };
        write!(f, " {on} owes {} {row}", self.owed)
    }
}

// Power for so many writes, the last of which is torn so.
fn supply(left: u32, tear: u8) -> Supply<'static> {
    let junk = &JUNK;
    Supply { left, tear, junk }
}

// The store up, on, and with its row of ones.
fn prepare<S: Store>(store: &mut S) {
    let _ = store.restart(supply(100, 0));
    let _ = store.commit(ROW, &OLD);
}

// What the store is now, and what the row is once it is up again.
fn look<S: Store>(store: &mut S, answer: Answer) -> Seen {
    let on = store.is_on();
    let owed = store.owed();
    let mut out = [0; 512];
    let _ = store.restart(supply(100, 0));
    let _ = store.read(ROW, &mut out);
    let mut new = OLD;
    new[LAST] = NINE;
    let row = if out == OLD {
        Row::Old
    } else if out == new {
        Row::New
    } else {
        Row::Other
    };
    Seen {
        answer,
        on,
        owed,
        row,
    }
}

// What a trial of the store answers, and what is left of the store.
pub(crate) fn try_out<S: Store, F: FnOnce(&mut S) -> Answer>(store: &mut S, trial: F) -> Seen
    requires { F.IsAlwaysCallable trial }
{
    prepare(store);
    let answer = trial(store);
    look(store, answer)
}

// A commit with so much power.
pub fn commit<S: Store>(store: &mut S, left: u32, tear: u8) -> Answer {
    let _ = store.restart(supply(left, tear));
    change_byte(store, ROW, LAST, NINE)
}

// A restart with so much power, after a commit with power for `cut` writes.
pub fn restart<S: Store>(store: &mut S, cut: u32, left: u32, tear: u8) -> Answer {
    let _ = commit(store, cut, 0);
    store.restart(supply(left, tear))
}
