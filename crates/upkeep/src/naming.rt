// The name set follows the names of a row.
ghost use Rattle.std.specs.Prelude.{◌≡◌, if◌then◌else◌, Some, None, nat_le};
ghost use Rattle.upkeep.specs.Names.{Renamed, Forgot, Remembered};

use model::Name;
use names::{NameSet, Taken};

// Takes a stop's names below the floor out of the set, if any fell, and puts in the one that came, if one did.
pub fn rename<N: NameSet>(names: &mut N, stop: u16, floor: Option<u32>, come: Option<Name>)
    ensures { Renamed (N.meaning names.old) (N.meaning names.new) stop floor come }
{
    forget(names, stop, floor);
    remember(names, stop, come);
}

fn forget<N: NameSet>(names: &mut N, stop: u16, floor: Option<u32>)
    ensures { Forgot (N.meaning names.old) (N.meaning names.new) stop floor }
{
    if let Some(floor) = floor {
        names.drop_below(stop, floor);
    }
}

fn remember<N: NameSet>(names: &mut N, stop: u16, come: Option<Name>)
    ensures { Remembered (N.meaning names.old) (N.meaning names.new) stop come }
{
    if let Some(name) = come {
        let _ = names.add(Taken { stop, name });
    }
}

// The floor, if names fell as one came: then no more are left than there were before.
pub fn fallen(before: usize, after: usize, floor: u32) -> Option<u32>
    ensures { result ≡ (if nat_le after before then Some floor else None) }
{
    (after <= before).then_some(floor)
}
