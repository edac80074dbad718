// The send queue follows what is pending in a row.
ghost use Rattle.std.specs.Prelude.{◌≡◌, ◌<◌};
ghost use Rattle.law.specs.Node.{requeued};
ghost use Rattle.model.specs.Limits.{stops};
ghost use Rattle.queue.specs.Lines.{lined};
ghost use Rattle.rows.specs.Meaning.{row_of};
ghost use Rattle.upkeep.specs.Lines.{Line};

use queue::Queue;
use rows::StopRow;

// A stop with something pending joins at the back or keeps its place; any other leaves.
pub fn requeue(queue: &mut Queue, stop: u16, row: &StopRow)
    ensures { Line (lined queue.old) → stop < stops → lined queue.new ≡ requeued stop (row_of row.now).pending (lined queue.old) }
{
    match row.oldest() {
        Some(_) => queue.join(stop),
        None => queue.leave(stop),
    }
}
