// What a name set is. The definitions that its promises cite stand in specs/Held.antt and specs/Changes.antt.
ghost use Rattle.std.specs.Prelude.{◌≤◌};
ghost use Rattle.names.specs.Held.{Meaning, Counted, most_taken};
ghost use Rattle.names.specs.Changes.{Asked, Added, Dropped, Cleared};

use super::taken::Taken;
use model::Answer;

// A set of names taken at stops, of which it holds at most 1,280. All its memory is had when it is made.
pub trait NameSet {
    // Which names the set holds, and how many.
    ghost meaning: { Self → Meaning };

    // Whether the name was taken at the stop.
    fn has(&mut self, taken: Taken) -> bool
        ensures { Asked (meaning self.old) taken.stop taken.name result (meaning self.new) };

    // Puts the name in. `Seen` if it is there, `Full` if 1,280 others are; then nothing changes.
    fn add(&mut self, taken: Taken) -> Answer
        ensures { Added (meaning self.old) taken.stop taken.name result (meaning self.new) };

    // Takes out the stop's names with times below the floor, and no other.
    fn drop_below(&mut self, stop: u16, floor: u32)
        ensures { Dropped (meaning self.old) stop floor (meaning self.new) };

    // Takes out everything.
    fn clear(&mut self)
        ensures { Cleared (meaning self.new) };

    ghost counted: { (s : Self) → Counted (meaning s) };

    ghost bounded: { (s : Self) → (meaning s).size ≤ most_taken };
}
