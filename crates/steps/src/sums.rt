// What a row holds back: the least of its times, and how much is pending.
ghost use Rattle.std.specs.Prelude.{◌≡◌, map, take};
ghost use Rattle.model.specs.OnBytes.{on_bytes};
ghost use Rattle.law.specs.Lists.{total};
ghost use Rattle.law.specs.Stops.{least_time, least_due};
ghost use Rattle.rows.specs.Meaning.{row_of};

use computations::{Computation, due_in};
use model::Production;
use rows::StopRow;

// The least of a number, the row's pending times and its due.
pub fn low_in<C: Computation>(row: &StopRow, low: u32) -> u32
    ensures { result ≡ least_due ((on_bytes C.operations).due (row_of row.now).state) (least_time (row_of row.now).pending low) }
{
    let least = least_time(row.pending(), low);
    due_in::<C>(row.state()).map_or(least, |due| due.min(least))
}

fn least_time(pending: &[Production], low: u32) -> u32
    ensures { result ≡ least_time pending.now low }
{
    pending
        .iter()
        .fold(low, |least, production| production.time.min(least))
}

// The amounts of the first four pending productions; a row has no more.
pub fn pending_amount(row: &StopRow) -> u32
    ensures { result ≡ total (map (λ p. p.amount) (take 4 (row_of row.now).pending)) }
{
    row.pending()
        .iter()
        .take(4)
        .map(|production| u32::from(production.amount))
        .sum()
}
