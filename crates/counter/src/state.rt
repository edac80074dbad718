// What the counter keeps of a stop.

// The mark is the start of the first open minute; four minutes are open, and minute m has its sum in place m modulo 4.
#[derive(Clone, Copy, PartialEq, Eq, Debug)]
pub struct CounterState {
    pub mark: u32,
    pub sums: [u16; 4],
}
