// Searching the table, which halves what is left, and closing a gap in it.
ghost use Rattle.std.specs.Prelude.{◌≡◌, ◌<◌, ◌≤◌, true, length, vec_len, vec_capacity, MatchResult};
ghost use Rattle.std.specs.List.{remove_range};
ghost use Rattle.names.specs.Held.{listed};
ghost use Rattle.sorted_names.specs.Order.{Climbs, Splits, Absent};

use names::Taken;

// The place of q, or the one that it would have: the first whose name does not stand before q.
pub(super) fn place_of(items: &[Taken], q: &Taken) -> usize
    requires { Climbs items.now }
    ensures { Splits items.now q.now result }
{
    items.partition_point(|p| p < q)
}

// Where the name stands, or else where it belongs.
pub(super) fn find(items: &[Taken], taken: Taken) -> Result<usize, usize>
    requires { Climbs items.now }
    ensures within { MatchResult result (λ i. i < length items.now) (λ i. i ≤ length items.now) }
    ensures finds { MatchResult result (λ _. listed items.now taken.stop taken.name ≡ true) (λ i. Absent items.now taken.stop taken.name i) }
{
    items.binary_search(&taken)
}

// Takes out what stands from one place up to another, and moves what follows down.
pub(super) fn close_gap(items: &mut Vec<Taken>, from: usize, to: usize)
    requires { (from ≤ to) × (to ≤ vec_len items.old) }
    ensures items { items.new.items ≡ remove_range items.old.items from to }
    ensures room { vec_capacity items.new ≡ vec_capacity items.old }
{
    if from < to {
        let len = items.len();
        items.copy_within(to..len, from);
        items.truncate(len - (to - from));
    }
}
