// What goes onto the link, and what befalls it there.
ghost use Rattle.std.specs.Prelude.{Ok};
ghost use Rattle.model.specs.declared.call.Call.TheVariants.{Send, Lose, Repeat};
ghost use Rattle.pair.specs.Promises.{Steps};

use super::Pair;
use computations::Computation;
use model::{Answer, Message, Outcome};
use names::NameSet;
use stores::Store;

impl<S: Store, N: NameSet, C: Computation, T: Store, O: NameSet, D: Computation> Pair<
    S,
    N,
    C,
    T,
    O,
    D,
> {
    // The stop whose turn it is sends its oldest production, and goes to the back of the queue.
    pub fn send(&mut self) -> Outcome
        ensures { Steps S.Store N.NameSet C.Computation T.Store O.NameSet D.Computation self.old self.new Send (Ok result) }
    {
        if !self.collector.is_on() {
            return Outcome::Plain(Answer::Off);
        }
        let Some(stop) = self.collector.queue_head() else {
            return Outcome::Plain(Answer::Nothing);
        };
        if self.link.is_full() {
            return Outcome::Plain(Answer::LinkFull);
        }
        let Some(production) = self.collector.oldest(stop) else {
            return Outcome::Plain(Answer::Nothing);
        };
        self.collector.turn();
        let _ = self.link.add(Message::Produced { stop, production });
        Outcome::Plain(Answer::Done)
    }

    // The message at a place is lost.
    pub fn lose(&mut self, place: u8) -> Outcome
        ensures { Steps S.Store N.NameSet C.Computation T.Store O.NameSet D.Computation self.old self.new (Lose place) (Ok result) }
    {
        match self.link.take_out(place) {
            Some(_) => Outcome::Plain(Answer::Done),
            None => Outcome::Plain(Answer::NoMessage),
        }
    }

    // The message at a place comes once more.
    pub fn repeat(&mut self, place: u8) -> Outcome
        ensures { Steps S.Store N.NameSet C.Computation T.Store O.NameSet D.Computation self.old self.new (Repeat place) (Ok result) }
    {
        let Some(message) = self.link.at(place) else {
            return Outcome::Plain(Answer::NoMessage);
        };
        match self.link.add(message) {
            Ok(()) => Outcome::Plain(Answer::Done),
            Err(full) => Outcome::Plain(full),
        }
    }
}
