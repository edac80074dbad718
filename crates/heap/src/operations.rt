// What is done with a heap: build it, put an element in, take one out, change one, look at the least.
ghost use Rattle.std.specs.Prelude.{◌≡◌, ◌-◌, ◌<◌, ◌≤◌, length, take, IfSome, slice_index_or, slice_set};
ghost use Rattle.std.specs.Cmp.{IsTotalOrder};
ghost use Rattle.std.specs.Slice.{IsGetResult};
ghost use Rattle.std.specs.List.Sorted.{IsPermutation};
ghost use Rattle.heap.specs.Heaps.{Heaped, HeapedBut, Least};

use crate::sifts::{is_below, sift_down, sift_up};

// Makes a heap of any elements.
pub fn build<T: Ord>(items: &mut [T])
    ensures shuffled { IsPermutation items.old items.new }
    ensures heaped { (o : IsTotalOrder T.Ord.cmp) → Heaped o items.new }
{
    for at in (0..items.len() / 2).rev() {
        sift_down(items, at);
    }
}

// The least element, which stands first.
pub fn least<T: Ord>(items: &[T]) -> Option<&T>
    ensures item { IsGetResult items.now 0 0 result }
    ensures least { (o : IsTotalOrder T.Ord.cmp) → Heaped o items.now → IfSome result (λ x. Least o x.now items.now) }
{
    items.first()
}

// The last element joins the heap that the others are.
pub fn put_in<T: Ord>(items: &mut [T])
    ensures shuffled { IsPermutation items.old items.new }
    ensures heaped { (o : IsTotalOrder T.Ord.cmp) → Heaped o (take (length items.old - 1) items.old) → Heaped o items.new }
{
    let count = items.len();
    if count > 0 {
        sift_up(items, count - 1);
    }
}

// The element at a place finds its own among the others, which are a heap without it.
fn mend<T: Ord>(items: &mut [T], at: usize)
    ensures shuffled { IsPermutation items.old items.new }
    ensures heaped { (o : IsTotalOrder T.Ord.cmp) → HeapedBut o 0 at items.old → Heaped o items.new }
{
    if at >= items.len() {
        return;
    }
    if 0 < at && is_below(items, at, (at - 1) / 2) {
        sift_up(items, at);
    } else {
        sift_down(items, at);
    }
}

// Puts another element in a place's stead; past the end nothing changes.
pub fn change_at<T: Ord + Drop>(items: &mut [T], at: usize, item: T)
    ensures shuffled { IsPermutation (slice_set items.old at item) items.new }
    ensures heaped { (o : IsTotalOrder T.Ord.cmp) → Heaped o items.old → Heaped o items.new }
{
    if at < items.len() {
        items[at] = item;
        mend(items, at);
    }
}

// Takes the element at a place out: it stands last, and the others are a heap. Past the end nothing changes.
pub fn take_at<T: Ord>(items: &mut [T], at: usize)
    ensures shuffled { IsPermutation items.old items.new }
    ensures last { (d : T) → at < length items.old → slice_index_or items.new (length items.old - 1) d ≡ slice_index_or items.old at d }
    ensures heaped { (o : IsTotalOrder T.Ord.cmp) → at < length items.old → Heaped o items.old → Heaped o (take (length items.old - 1) items.new) }
    ensures past { length items.old ≤ at → items.new ≡ items.old }
{
    let count = items.len();
    if at >= count {
        return;
    }
    items.swap(at, count - 1);
    mend(&mut items[0..count - 1], at);
}

// Takes the least element out: it stands last, and the others are a heap.
pub fn take_least<T: Ord>(items: &mut [T])
    ensures shuffled { IsPermutation items.old items.new }
    ensures least { (o : IsTotalOrder T.Ord.cmp) (d : T) → 0 < length items.old → Heaped o items.old → Least o (slice_index_or items.new (length items.old - 1) d) items.old }
    ensures heaped { (o : IsTotalOrder T.Ord.cmp) → Heaped o items.old → Heaped o (take (length items.old - 1) items.new) }
{
    take_at(items, 0);
}
