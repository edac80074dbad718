// The eleven calls on a pair of nodes.
use super::record::Record;

// The page that a torn write leaves behind: one byte throughout, or a lent page.
#[derive(Clone, Copy)]
pub enum Junk<'a> {
    Fill(u8),
    Page(&'a [u8]),
}

// Node 0 is the collector and node 1 the spotter; a place counts the link's messages from the oldest, 0.
#[derive(Clone, Copy)]
pub enum Call<'a> {
    HandIn {
        record: Record,
    },
    Advance {
        time: u32,
    },
    Fire {
        node: u8,
    },
    Send,
    Lose {
        place: u8,
    },
    Repeat {
        place: u8,
    },
    Deliver {
        place: u8,
    },
    Pass,
    Restart {
        node: u8,
        left: u32,
        tear: u8,
        junk: Junk<'a>,
    },
    Show,
    MarkDone {
        stop: u16,
        serial: u32,
    },
}
