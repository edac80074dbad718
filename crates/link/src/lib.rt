// The radio link: the messages on their way, oldest first.
#![tactic(auto)]

ghost use Rattle.std.specs.Prelude.{◌≡◌, [], ◌∷◌, ◌++◌, length, slice_get, Ok, Err, if◌then◌else◌, nat_le, nat_lt};
ghost use Rattle.std.specs.List.{remove};
ghost use Rattle.model.specs.Limits.{most_messages};
ghost use Rattle.model.specs.declared.answer.Answer.TheVariants.{LinkFull};
ghost use Rattle.link.specs.Carried.{carried};

use bounded::Bounded;
use model::{Answer, Message};

// The link holds so many messages and no more.
const MOST: usize = 16;

#[derive(Drop)]
pub struct Link {
    messages: Bounded<Message, MOST>,
}

impl Link {
    pub fn new() -> Link
        ensures { carried result ≡ [] }
    {
        Link {
            messages: Bounded::new(Message::Acknowledged { stop: 0, serial: 0 }),
        }
    }

    pub fn is_full(&self) -> bool
        ensures { result ≡ nat_le most_messages (length (carried self.now)) }
    {
        self.messages.as_slice().len() >= MOST
    }

    // The message at a place, counted from the oldest.
    pub fn at(&self, place: u8) -> Option<Message>
        ensures { result ≡ slice_get (carried self.now) place }
    {
        self.messages.as_slice().get(usize::from(place)).copied()
    }

    // Puts a message at the end, if there is room.
    pub fn add(&mut self, message: Message) -> Result<(), Answer>
        ensures room { result ≡ (if nat_lt (length (carried self.old)) most_messages then Ok tt else Err LinkFull) }
        ensures messages { carried self.new ≡ (if nat_lt (length (carried self.old)) most_messages then carried self.old ++ message ∷ [] else carried self.old) }
    {
        self.messages.push(message).map_err(|_| Answer::LinkFull)
    }

    // Takes the message at a place out, if there is one.
    pub fn take_out(&mut self, place: u8) -> Option<Message>
        ensures message { result ≡ slice_get (carried self.old) place }
        ensures messages { carried self.new ≡ (if nat_lt place (length (carried self.old)) then remove (carried self.old) place else carried self.old) }
    {
        self.messages.remove(usize::from(place))
    }
}
