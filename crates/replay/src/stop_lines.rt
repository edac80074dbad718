// Where the requests are, stop by stop.
ghost use Rattle.pair.specs.Tallies.{measured, told_of};
ghost use Rattle.replay.specs.Stops.{Says, stop_lines, tally_line};

use account::stop_line;
use computations::{Conserving, Totalling};
use names::NameSet;
use pair::{Pair, Stopped};
use std::alloc::Global;
use stores::Store;

// A line for each stop that has something to tell, stops rising.
pub fn stop_lines<S: Store, N: NameSet, C: Conserving, T: Store, O: NameSet, D: Totalling>(
    heap: Global,
    pair: &mut Pair<S, N, C, T, O, D>,
) -> Result<String, Stopped>
    ensures { Says S.Store N.NameSet C.Computation T.Store O.NameSet D.Computation pair.old pair.new (λ p. stop_lines (told_of (measured C.Computation C.holds) (measured D.Computation D.totals) p)) result }
{
    let mut text = String::new(heap);
    for stop in 0..32 {
        let line = one_stop(heap, pair, stop)?;
        text.push_str(line.as_str())?;
    }
    Ok(text)
}

fn one_stop<S: Store, N: NameSet, C: Conserving, T: Store, O: NameSet, D: Totalling>(
    heap: Global,
    pair: &mut Pair<S, N, C, T, O, D>,
    stop: u16,
) -> Result<String, Stopped>
    ensures { Says S.Store N.NameSet C.Computation T.Store O.NameSet D.Computation pair.old pair.new (λ p. tally_line stop (told_of (measured C.Computation C.holds) (measured D.Computation D.totals) p stop)) result }
{
    let line = match pair.tally(stop)? {
        Some(tally) => stop_line(heap, stop, tally.held, tally.pending, tally.landed)?,
        None => String::new(heap),
    };
    Ok(line)
}
