// How many names a set holds, and why rows never fill it.
ghost use Rattle.std.specs.Prelude.{◌≡◌};
ghost use Rattle.names.specs.Held.{most_taken};
ghost use Rattle.names.specs.Rows.{Covered, Room, Sized};

// The most names that a set holds. It is what 32 rows of 40 names hold, so a set whose names stand in rows is never
// full for a name that a row takes.
pub const fn most_names() -> usize
    ensures value { result ≡ most_taken }
    ensures covered { Covered }
    ensures sized { Sized }
    ensures room { Room }
{
    1_280
}
