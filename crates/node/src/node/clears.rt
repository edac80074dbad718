// A production is cleared: it was acknowledged, or is done.
ghost use Rattle.std.specs.Prelude.{◌≡◌};
ghost use Rattle.law.specs.Node.{clear};
ghost use Rattle.law.specs.Rows.{is_oldest};
ghost use Rattle.rows.specs.Meaning.{row_of};
ghost use Rattle.node.specs.Promises.{Answers};

use super::{Damaged, Node};
use computations::Computation;
use model::Answer;
use names::NameSet;
use rows::StopRow;
use stores::Store;

impl<S: Store, N: NameSet, C: Computation> Node<S, N, C> {
    // Clears a stop's oldest pending production, if it has this serial.
    pub fn clear(&mut self, stop: u16, serial: u32) -> Result<Answer, Damaged>
        ensures { Answers S.Store N.NameSet C.Computation self.old self.new result (λ kit free n. clear kit free stop serial n) }
    {
        if stop >= 32 {
            return Ok(Answer::OutOfRange);
        }
        if !self.is_on() {
            return Ok(Answer::Off);
        }
        let mut row = self.row(stop)?;
        if !is_oldest(&row, serial) {
            return Ok(Answer::NotOldest);
        }
        row.clear_oldest();
        Ok(self.commit(stop, &row, None, None))
    }
}

fn is_oldest(row: &StopRow, serial: u32) -> bool
    ensures { result ≡ is_oldest serial (row_of row.now).pending }
{
    row.oldest().is_some_and(|oldest| oldest.serial == serial)
}
