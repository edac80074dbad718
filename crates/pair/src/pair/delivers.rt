// A message arrives.
ghost use Rattle.std.specs.Prelude.{◌≡◌, ◌||◌, Some};
ghost use Rattle.std.specs.List.{slice_get};
ghost use Rattle.model.specs.Answers.{is_done, is_seen};
ghost use Rattle.model.specs.declared.call.Call.TheVariants.{Deliver};
ghost use Rattle.model.specs.declared.record.Message.TheVariants.{Produced, Acknowledged};
ghost use Rattle.law.specs.Pair.{as_record};
ghost use Rattle.link.specs.Carried.{carried};
ghost use Rattle.pair.specs.Promises.{Steps};

use super::Pair;
use computations::Computation;
use model::{Answer, Message, Name, Outcome, Production, Record};
use names::NameSet;
use node::Damaged;
use stores::Store;

impl<S: Store, N: NameSet, C: Computation, T: Store, O: NameSet, D: Computation> Pair<
    S,
    N,
    C,
    T,
    O,
    D,
> {
    // The message at a place arrives: a production at the spotter, an acknowledgement at the collector.
    pub fn deliver(&mut self, place: u8) -> Result<Outcome, Damaged>
        ensures { Steps S.Store N.NameSet C.Computation T.Store O.NameSet D.Computation self.old self.new (Deliver place) result }
    {
        match self.link.at(place) {
            Some(Message::Produced { stop, production }) => self.land(place, stop, production),
            Some(Message::Acknowledged { stop, serial }) => self.acknowledge(place, stop, serial),
            None => Ok(Outcome::Plain(Answer::NoMessage)),
        }
    }

    // The production at a place arrives; word goes back once it is taken, or was taken before.
    fn land(&mut self, place: u8, stop: u16, production: Production) -> Result<Outcome, Damaged>
        ensures { slice_get (carried self.old.link) place ≡ Some (Produced stop production) → Steps S.Store N.NameSet C.Computation T.Store O.NameSet D.Computation self.old self.new (Deliver place) result }
    {
        if !self.spotter.is_on() {
            return Ok(Outcome::Plain(Answer::Off));
        }
        let answer = self.spotter.hand_in(&as_record(stop, production))?;
        let _ = self.link.take_out(place);
        if is_known(answer) {
            let serial = production.serial;
            let _ = self.link.add(Message::Acknowledged { stop, serial });
        }
        Ok(Outcome::Plain(answer))
    }

    // The acknowledgement at a place arrives.
    fn acknowledge(&mut self, place: u8, stop: u16, serial: u32) -> Result<Outcome, Damaged>
        ensures { slice_get (carried self.old.link) place ≡ Some (Acknowledged stop serial) → Steps S.Store N.NameSet C.Computation T.Store O.NameSet D.Computation self.old self.new (Deliver place) result }
    {
        if !self.collector.is_on() {
            return Ok(Outcome::Plain(Answer::Off));
        }
        let _ = self.link.take_out(place);
        self.collector.clear(stop, serial).map(Outcome::Plain)
    }
}

// A production as the spotter takes it: its sender is the stop. No `From`, since it takes two values.
fn as_record(stop: u16, production: Production) -> Record
    ensures { result ≡ as_record stop production }
{
    let name = Name {
        sender: stop,
        serial: production.serial,
        time: production.time,
    };
    let amount = production.amount;
    Record { name, stop, amount }
}

// Whether the spotter has the production, now or since before.
fn is_known(answer: Answer) -> bool
    ensures { result ≡ (is_done answer || is_seen answer) }
{
    matches!(answer, Answer::Done | Answer::Seen)
}
