// The moment at which a record comes.

// What is known when a record comes: whether the node is on, its watermark, whether the name was seen.
#[derive(Clone, Copy)]
pub struct Moment {
    pub on: bool,
    pub w: u32,
    pub seen: bool,
}
