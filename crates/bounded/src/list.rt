// A list of at most N items in memory of its own, so that nothing is allocated as it grows.
ghost use Rattle.std.specs.Prelude.{◌≡◌, ◌≤◌, length};

mod methods;

// The kit's ArrayVec would ask a default of every item's type, which callers need not have.
#[derive(Drop)]
pub struct Bounded<T, const N: usize> {
    items: [T; N],
    count: usize,
    ghost sized: { length items ≡ N },
    ghost within: { count ≤ N },
}
