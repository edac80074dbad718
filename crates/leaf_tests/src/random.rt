// Numbers that look random and are the same in each run.
#[derive(Clone, Copy)]
pub struct Random {
    seed: u32,
}

impl Random {
    pub fn new(seed: u32) -> Random {
        Random { seed }
    }

    pub fn next(&mut self) -> u32 {
        self.seed = self
            .seed
            .wrapping_mul(1_664_525)
            .wrapping_add(1_013_904_223);
        self.seed.rotate_left(16)
    }
}
