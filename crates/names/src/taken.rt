// A name taken at a stop: what name sets are made of, and the order in which they may keep it.
ghost use Rattle.std.specs.Prelude.{◌≡◌, refl};
ghost use Rattle.std.proofs.Common.{rules};
ghost use Rattle.std.specs.Cmp.{partial_order_from_agreeing_total};
ghost use Rattle.std.specs.Cmp.Rules.{comparing};
ghost use Rattle.std.specs.Ordering.{as_partial_cmp};
ghost use Rattle.names.specs.Order.{taken_cmp};
ghost use Rattle.names.specs.Changes.{is_below};
ghost use Rattle.names.specs.Weighed.{weighed};

use model::Name;
use std::cmp::Ordering;

// Equal ones have the same stop, and names with the same sender, the same serial and the same time.
#[derive(Clone, Copy, PartialEq, Eq)]
pub struct Taken {
    pub stop: u16,
    pub name: Name,
}

impl Taken {
    // All that it says as one number of 32 bits, each part by a weight.
    pub fn weighed(self, serial: u32, time: u32, sender: u32, stop: u32) -> u32
        ensures { result ≡ weighed serial time sender stop self }
    {
        let Taken { stop: place, name } = self;
        name.serial
            .wrapping_mul(serial)
            .wrapping_add(name.time.wrapping_mul(time))
            .wrapping_add(u32::from(name.sender).wrapping_mul(sender))
            .wrapping_add(u32::from(place).wrapping_mul(stop))
    }

    // Whether this is one of the stop's names with times below the floor.
    pub fn is_below(&self, stop: u16, floor: u32) -> bool
        ensures { result ≡ is_below stop floor self.now }
    {
        self.stop == stop && self.name.time < floor
    }
}

// By stop, then by time: so a stop's names below a floor stand side by side. A derive would go by the order of `Name`, which
// is public and begins with the sender. Each part is looked at only where those before it are equal: a search makes many
// of these comparisons, and `then` would make all four.
impl Ord for Taken {
    ghost cmp = { taken_cmp };

    ghost total = { Prim.search (comparing, rules) };

    ghost matches_partial_cmp = { Prim.search (comparing, rules) };

    ghost matches_eq = { Prim.search (comparing, rules) };

    fn cmp(&self, other: &Taken) -> Ordering {
        if self.stop != other.stop {
            self.stop.cmp(&other.stop)
        } else if self.name.time != other.name.time {
            self.name.time.cmp(&other.name.time)
        } else if self.name.serial != other.name.serial {
            self.name.serial.cmp(&other.name.serial)
        } else {
            self.name.sender.cmp(&other.name.sender)
        }
    }
}

impl PartialOrd for Taken {
    ghost partial_cmp = { as_partial_cmp taken_cmp };

    ghost laws = { partial_order_from_agreeing_total taken_cmp (Prim.search (comparing, rules)) (λ p q. refl) (Prim.search (comparing, rules)) };

    fn partial_cmp(&self, other: &Taken) -> Option<Ordering> {
        Some(self.cmp(other))
    }
}
