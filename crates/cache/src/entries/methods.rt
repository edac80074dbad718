// Keeping a copy, finding it and letting all go.
ghost use Rattle.std.specs.Prelude.{◌≡◌, true, false, Some, MatchOption};
ghost use Rattle.cache.specs.Copies.{holds, copy_of, kept, Empty};

use super::{Entries, Entry};
use stores::Page;

impl Entry {
    // Makes this the copy of a row.
    fn refresh(&mut self, row: usize, page: &Page)
        ensures { self.new ≡ record { row = Some row; page = page.now } }
    {
        self.row = Some(row);
        self.page = *page;
    }
}

impl Entries {
    // Four places, and no copy.
    pub fn new() -> Entries
        ensures { Empty result.places }
    {
        let none = Entry {
            row: None,
            page: [0; 512],
        };
        Entries { places: [none; 4] }
    }

    // The copy of a row, if there is one.
    pub fn find(&self, row: usize) -> Option<&Page>
        ensures { MatchOption result (holds self.now.places row ≡ false) (λ p. (holds self.now.places row ≡ true) × (p.now ≡ copy_of self.now.places row)) }
    {
        let entry = &self.places[row % 4];
        (entry.row == Some(row)).then_some(&entry.page)
    }

    // Keeps a copy of a row in the place that is the row's.
    pub fn keep(&mut self, row: usize, page: &Page)
        ensures { self.new.places ≡ kept self.old.places row page.now }
    {
        let entry = &mut self.places[row % 4];
        entry.refresh(row, page);
    }

    // Lets every copy go.
    pub fn clear(&mut self)
        ensures { Empty self.new.places }
    {
        *self = Entries::new();
    }
}
