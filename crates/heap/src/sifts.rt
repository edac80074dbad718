// The two ways in which one element finds its place in a heap. Each follows a path in the tree, where each place is known
// from the one before it and from what stands there, so that no range or iterator has the places.
ghost use Rattle.std.specs.Prelude.{ℕ, ◌+◌, ◌*◌, ◌<◌, length};
ghost use Rattle.std.specs.Cmp.{IsTotalOrder};
ghost use Rattle.std.specs.List.Sorted.{IsPermutation};
ghost use Rattle.heap.specs.Heaps.{Heaped, HeapedFrom, HeapedBut, OverChildren, UnderParent, Tells, LeastChild};

pub(crate) fn is_below<T: Ord>(items: &[T], a: usize, b: usize) -> bool
    requires { (a < length items.now) × (b < length items.now) }
    ensures { Tells T.Ord.cmp items.now a b result }
{
    items[a].cmp(&items[b]).is_lt()
}

fn least_child<T: Ord>(items: &[T], at: usize) -> usize
    requires { 2 * at + 1 < length items.now }
    ensures { LeastChild T.Ord.cmp items.now at result }
{
    let left = 2 * at + 1;
    if left + 1 < items.len() && is_below(items, left + 1, left) {
        left + 1
    } else {
        left
    }
}

// Moves the element at a place up until its parent is not above it.
pub fn sift_up<T: Ord>(items: &mut [T], at: usize)
    ensures shuffled { IsPermutation items.old items.new }
    ensures heaped { (o : IsTotalOrder T.Ord.cmp) → at < length items.old → HeapedBut o 0 at items.old → OverChildren o at items.old → Heaped o items.new }
{
    if at >= items.len() {
        return;
    }
    let mut place = at;
    while 0 < place && is_below(items, place, (place - 1) / 2) {
        items.swap(place, (place - 1) / 2);
        place = (place - 1) / 2;
    }
}

// Moves the element at a place down until no child is below it.
pub fn sift_down<T: Ord>(items: &mut [T], at: usize)
    ensures shuffled { IsPermutation items.old items.new }
    ensures heaped { (o : IsTotalOrder T.Ord.cmp) (low : ℕ) → HeapedBut o low at items.old → UnderParent o low at items.old → HeapedFrom o low items.new }
{
    let mut place = at;
    while place < items.len() / 2 {
        let child = least_child(items, place);
        if !is_below(items, child, place) {
            return;
        }
        items.swap(place, child);
        place = child;
    }
}
