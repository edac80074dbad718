// Copies of up to four rows. Row r has its place at r modulo 4, and the row kept last in a place is the one that is there.
ghost use Rattle.std.specs.Prelude.{◌≡◌, length};

mod methods;

use stores::Page;

// The copy of a row, or of none. A cache is four such entries, plain structs, of which one is lent and refreshed after a
// commit: that is its required form, so the page stands beside the row and not in an Option with it.
#[derive(Clone, Copy)]
pub struct Entry {
    row: Option<usize>,
    page: Page,
}

#[derive(Drop)]
pub struct Entries {
    places: [Entry; 4],
    ghost four: { length places ≡ 4 },
}
