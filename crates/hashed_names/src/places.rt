// 2,048 places, each free or taken by a name.
ghost use Rattle.std.specs.Prelude.{◌≡◌, vec_len};

use names::Taken;

mod calls;
mod rebuild;

#[derive(Drop)]
pub struct Places {
    slots: Vec<Option<Taken>>,
    ghost long: { vec_len slots ≡ 2048 },
}

// Where a search ends: at the name, at the free place that would take it, or nowhere, after all places. An `Option` or
// a `Result` has no third case.
#[derive(Clone, Copy)]
pub enum Spot {
    Here,
    Free(usize),
    Nowhere,
}
