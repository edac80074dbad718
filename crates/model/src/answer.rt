// What a call answers, and what is wrong with a file of frames. Each case has a number, by which programs print it.
ghost use Rattle.std.specs.Prelude.{◌≡◌};
ghost use Rattle.model.specs.Answers.{answer_number, as_result, fault_number, outcome_answer};

use super::record::Production;

// The write at which power failed: the node whose card it was, the row that was being written, and the page.
#[derive(Clone, Copy, PartialEq, Eq, Debug)]
pub struct CutPoint {
    pub node: u8,
    pub row: u8,
    pub page: u8,
}

// What a call answers. Every case but `Done` and `Cut` is a refusal. It is an enum of its own and no `Result`, since files and
// definitions number all fourteen, and rows may have changed at a cut.
#[derive(Clone, Copy, PartialEq, Eq, Debug)]
pub enum Answer {
    Done,
    OutOfRange,
    Off,
    Late,
    Seen,
    Early,
    Over,
    Full,
    NoRoom,
    Cut(CutPoint),
    Nothing,
    LinkFull,
    NoMessage,
    NotOldest,
}

impl Answer {
    // `Ok` if the call was done, and otherwise the answer, so that `?` hands it on.
    pub fn done(self) -> Result<(), Answer>
        ensures { result ≡ as_result self }
    {
        match self {
            Answer::Done => Ok(()),
            other => Err(other),
        }
    }
}

// By a match, since one case carries something.
impl From<Answer> for u8 {
    ghost from_gives = { λ answer number. number ≡ answer_number answer };

    fn from(answer: Answer) -> u8 {
        match answer {
            Answer::Done => 0,
            Answer::OutOfRange => 1,
            Answer::Off => 2,
            Answer::Late => 3,
            Answer::Seen => 4,
            Answer::Early => 5,
            Answer::Over => 6,
            Answer::Full => 7,
            Answer::NoRoom => 8,
            Answer::Cut(_) => 9,
            Answer::Nothing => 10,
            Answer::LinkFull => 11,
            Answer::NoMessage => 12,
            Answer::NotOldest => 13,
        }
    }
}

// An answer with what it carries: a show that is done names the production shown and its stop.
#[derive(Clone, Copy, PartialEq, Eq, Debug)]
pub enum Outcome {
    Plain(Answer),
    Shown { stop: u16, production: Production },
}

impl From<Outcome> for Answer {
    ghost from_gives = { λ outcome answer. answer ≡ outcome_answer outcome };

    fn from(outcome: Outcome) -> Answer {
        match outcome {
            Outcome::Plain(answer) => answer,
            Outcome::Shown { .. } => Answer::Done,
        }
    }
}

// What a computation says of a record before it is taken. It is an enum of its own, since the match of admission takes it
// beside time and amount.
#[derive(Clone, Copy, PartialEq, Eq, Debug)]
pub enum Verdict {
    TooEarly,
    TooMuch,
    Fine,
}

// What is wrong with a file of frames, or with the room for writing one.
#[derive(Clone, Copy, PartialEq, Eq, Debug)]
pub enum Fault {
    HeaderShort = 20,
    UnknownKind = 21,
    WrongLength = 22,
    BodyShort = 23,
    BufferTooSmall = 24,
}

impl From<Fault> for u8 {
    ghost from_gives = { λ fault number. number ≡ fault_number fault };

    fn from(fault: Fault) -> u8 {
        fault as u8
    }
}
