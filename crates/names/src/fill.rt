// Filling a set with what a row holds.
ghost use Rattle.names.specs.Fill.{AddedAll};

use super::set::NameSet;
use super::taken::Taken;
use model::{Answer, Name};

// Puts in names that were taken at one stop. `Done` if all of them are in then; `Full` if one found no room.
pub fn add_all<N: NameSet>(set: &mut N, stop: u16, names: &[Name]) -> Answer
    ensures { AddedAll (N.meaning set.old) stop names.now result (N.meaning set.new) }
{
    for name in names {
        if let Answer::Full = set.add(Taken { stop, name: *name }) {
            return Answer::Full;
        }
    }
    Answer::Done
}
