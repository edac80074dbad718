// A frame as it stands in a script: its kind, and its body, not yet decoded.
ghost use Rattle.std.specs.Prelude.{◌≡◌};
ghost use Rattle.frames.specs.Frames.{frame_body, frame_kind};

use super::kind::Kind;

#[derive(Clone, Copy)]
pub enum Frame<'a> {
    HandIn(&'a [u8]),
    Advance(&'a [u8]),
    Fire(&'a [u8]),
    Send(&'a [u8]),
    Lose(&'a [u8]),
    Repeat(&'a [u8]),
    Deliver(&'a [u8]),
    Pass(&'a [u8]),
    Restart(&'a [u8]),
    Show(&'a [u8]),
    MarkDone(&'a [u8]),
}

// The three matches say the same of each case: the cases of `Frame`, which hold the body, are a required form.
impl<'a> Frame<'a> {
    pub fn new(kind: Kind, body: &'a [u8]) -> Frame<'a>
        ensures kind { frame_kind result ≡ kind }
        ensures body { frame_body result ≡ body.now }
    {
        match kind {
            Kind::HandIn => Frame::HandIn(body),
            Kind::Advance => Frame::Advance(body),
            Kind::Fire => Frame::Fire(body),
            Kind::Send => Frame::Send(body),
            Kind::Lose => Frame::Lose(body),
            Kind::Repeat => Frame::Repeat(body),
            Kind::Deliver => Frame::Deliver(body),
            Kind::Pass => Frame::Pass(body),
            Kind::Restart => Frame::Restart(body),
            Kind::Show => Frame::Show(body),
            Kind::MarkDone => Frame::MarkDone(body),
        }
    }

    pub fn kind(&self) -> Kind
        ensures { result ≡ frame_kind self.now }
    {
        match self {
            Frame::HandIn(_) => Kind::HandIn,
            Frame::Advance(_) => Kind::Advance,
            Frame::Fire(_) => Kind::Fire,
            Frame::Send(_) => Kind::Send,
            Frame::Lose(_) => Kind::Lose,
            Frame::Repeat(_) => Kind::Repeat,
            Frame::Deliver(_) => Kind::Deliver,
            Frame::Pass(_) => Kind::Pass,
            Frame::Restart(_) => Kind::Restart,
            Frame::Show(_) => Kind::Show,
            Frame::MarkDone(_) => Kind::MarkDone,
        }
    }

    pub fn body(&self) -> &'a [u8]
        ensures { result.now ≡ frame_body self.now }
    {
        match self {
            Frame::HandIn(body) => body,
            Frame::Advance(body) => body,
            Frame::Fire(body) => body,
            Frame::Send(body) => body,
            Frame::Lose(body) => body,
            Frame::Repeat(body) => body,
            Frame::Deliver(body) => body,
            Frame::Pass(body) => body,
            Frame::Restart(body) => body,
            Frame::Show(body) => body,
            Frame::MarkDone(body) => body,
        }
    }
}
