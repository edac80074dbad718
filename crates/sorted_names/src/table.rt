// The sorted table.
ghost use Rattle.std.specs.Prelude.{◌≤◌, vec_items, vec_len, vec_capacity};
ghost use Rattle.sorted_names.specs.Order.{Climbs};

use names::Taken;

mod calls;

// Names in order, side by side.
#[derive(Drop)]
pub struct SortedNames {
    items: Vec<Taken>,
    ghost roomy: { 1280 ≤ vec_capacity items },
    ghost few: { vec_len items ≤ 1280 },
    ghost climbs: { Climbs (vec_items items) },
}
