// The hash table.
ghost use Rattle.std.specs.Prelude.{◌≤◌};
ghost use Rattle.hashed_names.specs.Sound.{Sound};
ghost use Rattle.hashed_names.specs.Places.{slots_of};

use crate::places::Places;

mod calls;

// The places, how many of them are taken, and as many again for the names that stay when some are dropped. The count is no
// length of a buffer, which always has 2,048 places; it is kept so that no add has to count.
#[derive(Drop)]
pub struct HashedNames {
    places: Places,
    spare: Places,
    count: usize,
    ghost sound: { ∥ Sound (slots_of places) count ∥₁ },
    ghost few: { count ≤ 1280 },
}
