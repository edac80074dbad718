// What the eager computation keeps.
#[derive(Clone, Copy, PartialEq, Eq, Debug)]
pub struct EagerState {
    pub mark: u32,
    pub due: Option<u32>,
}
