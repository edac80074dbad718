// The numbers that a call has, by the word that stands before each in a line, and how large each can be.
ghost use Rattle.std.specs.Prelude.{◌≡◌, Some};
ghost use Rattle.parser.specs.Fields.{field_name, most_of};

use std::fmt;

#[derive(Clone, Copy, PartialEq, Eq, Debug)]
pub enum Field {
    Sender,
    Stop,
    Serial,
    Time,
    Amount,
    Node,
    Place,
    Left,
    Tear,
    Fill,
}

impl Field {
    pub fn name(self) -> &'static str
        ensures { result.now ≡ field_name self }
    {
        match self {
            Field::Sender => "sender",
            Field::Stop => "stop",
            Field::Serial => "serial",
            Field::Time => "time",
            Field::Amount => "amount",
            Field::Node => "node",
            Field::Place => "place",
            Field::Left => "left",
            Field::Tear => "tear",
            Field::Fill => "fill",
        }
    }

    // The largest number that fits the field's width.
    pub fn most(self) -> u32
        ensures { result ≡ most_of self }
    {
        match self {
            Field::Sender | Field::Stop | Field::Amount => 65535,
            Field::Serial | Field::Time | Field::Left => 4294967295,
            Field::Node | Field::Place | Field::Tear | Field::Fill => 255,
        }
    }
}

impl fmt::Display for Field {
    ghost output = { λ f. Some (field_name f) };

    fn fmt<W: fmt::Write>(&self, f: &mut fmt::Formatter<W>) -> fmt::Result {
        f.write_str(self.name())
    }
}
