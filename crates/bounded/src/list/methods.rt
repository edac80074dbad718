// A bounded list, as the list that it stands for.
ghost use Rattle.std.specs.Prelude.{◌≡◌, ◌≤◌, [], ◌++◌, length, take, slice_get, if◌then◌else◌, nat_lt, Bool, filter};
ghost use Rattle.std.specs.List.{remove};
ghost use Rattle.std.specs.Fn.{FnReturnsAt};
ghost use Rattle.bounded.specs.Lists.{listed, pushed, push_result};

use super::Bounded;

impl<T: Copy, const N: usize> Bounded<T, N> {
    // An empty list; the filler stands where no item does.
    pub fn new(filler: T) -> Bounded<T, N>
        ensures { listed result ≡ [] }
    {
        Bounded {
            items: [filler; N],
            count: 0,
        }
    }

    // The first N of these items.
    pub fn copied(filler: T, items: &[T]) -> Bounded<T, N>
        ensures { listed result ≡ take N items.now }
    {
        let mut list = Bounded::new(filler);
        list.extend(items);
        list
    }

    // Adds these items at the end, as many as there is room for.
    pub fn extend(&mut self, more: &[T])
        ensures { listed self.new ≡ take N (listed self.old ++ more.now) }
    {
        for item in more {
            let _ = self.push(*item);
        }
    }

    pub fn as_slice(&self) -> &[T]
        ensures value { result.now ≡ listed self.now }
        ensures bound { length result.now ≤ N }
    {
        let all = &self.items[..];
        &all[0..self.count]
    }

    // Adds an item at the end, or gives it back if there is no room.
    pub fn push(&mut self, item: T) -> Result<(), T>
        ensures room { result ≡ push_result N item (listed self.old) }
        ensures items { listed self.new ≡ pushed N item (listed self.old) }
    {
        if self.count >= N {
            return Err(item);
        }
        self.items[self.count] = item;
        self.count += 1;
        Ok(())
    }

    // Takes out the item at a place, if there is one; those behind it move up.
    pub fn remove(&mut self, place: usize) -> Option<T>
        ensures item { result ≡ slice_get (listed self.old) place }
        ensures items { listed self.new ≡ (if nat_lt place (length (listed self.old)) then remove (listed self.old) place else listed self.old) }
    {
        let item = *self.as_slice().get(place)?;
        let before = self.emptied();
        let all = before.as_slice();
        self.extend(&all[0..place]);
        self.extend(&all[place + 1..]);
        Some(item)
    }

    // Keeps the items that pass a test, in their order.
    pub fn retain<F: Fn(&T) -> bool>(&mut self, keep: F)
        requires { F.IsAlwaysCallable keep }
        ensures { (test : T → Bool) → ((x : T) (b : Bool) → FnReturnsAt F.Fn keep x b → b ≡ test x) → listed self.new ≡ filter test (listed self.old) }
    {
        let before = self.emptied();
        for old in before.as_slice() {
            let passes = keep(old);
            if passes {
                let _ = self.push(*old);
            }
        }
    }

    pub fn clear(&mut self)
        ensures { listed self.new ≡ [] }
    {
        self.count = 0;
    }

    // The list as it was; it is empty now. So what stays of it goes back with neither a filler nor a second copy.
    fn emptied(&mut self) -> Bounded<T, N>
        ensures before { listed result ≡ listed self.old }
        ensures none { listed self.new ≡ [] }
    {
        let before = Bounded {
            items: self.items,
            count: self.count,
        };
        self.clear();
        before
    }
}
