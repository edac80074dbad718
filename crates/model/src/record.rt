// What guides hand in, what a node produces from it, and what travels on the link.

// The name of a record. Equal names at one stop mean one record, even if the amounts differ.
#[derive(Clone, Copy, PartialEq, Eq, PartialOrd, Ord, Debug, Default)]
pub struct Name {
    pub sender: u16,
    pub serial: u32,
    pub time: u32,
}

// So many requests for a stop.
#[derive(Clone, Copy, PartialEq, Eq, Debug)]
pub struct Record {
    pub name: Name,
    pub stop: u16,
    pub amount: u16,
}

// What a stop emitted, under a serial of its own.
#[derive(Clone, Copy, PartialEq, Eq, Debug, Default)]
pub struct Production {
    pub serial: u32,
    pub time: u32,
    pub amount: u16,
}

// What the link carries: a production to the spotter, or word to the collector that one has arrived.
#[derive(Clone, Copy, PartialEq, Eq, Debug)]
pub enum Message {
    Produced { stop: u16, production: Production },
    Acknowledged { stop: u16, serial: u32 },
}
