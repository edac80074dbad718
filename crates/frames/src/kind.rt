// The kinds of frame: one for each call.
ghost use Rattle.std.specs.Prelude.{◌≡◌, IfOk};
ghost use Rattle.frames.specs.Kinds.{fits, kind_number, kind_or_fault};

use model::Fault;

#[derive(Clone, Copy, PartialEq, Eq, Debug)]
pub enum Kind {
    HandIn = 1,
    Advance = 2,
    Fire = 3,
    Send = 4,
    Lose = 5,
    Repeat = 6,
    Deliver = 7,
    Pass = 8,
    Restart = 9,
    Show = 10,
    MarkDone = 11,
}

impl From<Kind> for u16 {
    ghost from_gives = { λ kind number. number ≡ kind_number kind };

    fn from(kind: Kind) -> u16 {
        kind as u16
    }
}

impl TryFrom<u16> for Kind {
    type Error = Fault;

    ghost try_from_gives = { λ number result. (result ≡ kind_or_fault number) × IfOk result (λ k. kind_number k ≡ number) };

    fn try_from(number: u16) -> Result<Kind, Fault> {
        match number {
            1 => Ok(Kind::HandIn),
            2 => Ok(Kind::Advance),
            3 => Ok(Kind::Fire),
            4 => Ok(Kind::Send),
            5 => Ok(Kind::Lose),
            6 => Ok(Kind::Repeat),
            7 => Ok(Kind::Deliver),
            8 => Ok(Kind::Pass),
            9 => Ok(Kind::Restart),
            10 => Ok(Kind::Show),
            11 => Ok(Kind::MarkDone),
            _ => Err(Fault::UnknownKind),
        }
    }
}

impl Kind {
    // Whether a body of this kind can have so many bytes.
    pub fn fits(self, length: usize) -> bool
        ensures { result ≡ fits self length }
    {
        match self {
            Kind::HandIn => length == 14,
            Kind::Advance => length == 4,
            Kind::Fire | Kind::Lose | Kind::Repeat | Kind::Deliver => length == 1,
            Kind::Send | Kind::Pass | Kind::Show => length == 0,
            Kind::Restart => length == 7,
            Kind::MarkDone => length == 6,
        }
    }
}
