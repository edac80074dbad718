// What the detector keeps of a stop.

// The amount that is predicted, in sixteenths; the total of all that was taken; the mark, which is the last time taken.
#[derive(Clone, Copy, PartialEq, Eq, Debug)]
pub struct DetectorState {
    pub predicted: u32,
    pub total: u32,
    pub mark: u32,
}
