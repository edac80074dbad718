// A record is handed in.
ghost use Rattle.std.specs.Prelude.{◌≡◌, true};
ghost use Rattle.model.specs.Limits.{in_range};
ghost use Rattle.law.specs.Node.{hand_in};
ghost use Rattle.node.specs.Promises.{Answers, AnswersIf, judged_first};

use super::{Damaged, LAST_TIME, Node};
use computations::{Computation, Moment};
use model::{Answer, Record};
use names::NameSet;
use steps::take_record;
use stores::Store;
use upkeep::fallen;

impl<S: Store, N: NameSet, C: Computation> Node<S, N, C> {
    // Takes a record, or says why not.
    pub fn hand_in(&mut self, given: &Record) -> Result<Answer, Damaged>
        ensures { Answers S.Store N.NameSet C.Computation self.old self.new result (λ kit free n. hand_in kit free given.now n) }
    {
        // A refusal is an answer like another: only a damaged row is an error, which `?` hands on.
        match self.judge(given) {
            Answer::Done => self.take(given),
            refusal => Ok(refusal),
        }
    }

    // What can be said before a row is read.
    fn judge(&self, given: &Record) -> Answer
        ensures { result ≡ judged_first (in_range given.now) (S.Store.model self.now.store).power.on }
    {
        match (given.stop, given.name.time, given.amount) {
            (0..=31, 0..=LAST_TIME, 1..) if self.is_on() => Answer::Done,
            (0..=31, 0..=LAST_TIME, 1..) => Answer::Off,
            _ => Answer::OutOfRange,
        }
    }

    // Takes a record in range into its stop's row.
    fn take(&mut self, given: &Record) -> Result<Answer, Damaged>
        ensures { AnswersIf S.Store N.NameSet C.Computation self.old self.new (λ n. (in_range given.now ≡ true) × (n.power.on ≡ true)) result (λ kit free n. hand_in kit free given.now n) }
    {
        let mut row = self.row(given.stop)?;
        let seen = self.has_seen(given.stop, given.name);
        let before = row.names().len();
        let moment = Moment {
            on: true,
            w: self.watermark,
            seen,
        };
        // So here: a refusal turns from the step's error into the node's answer.
        match take_record::<C>(&mut row, moment, given) {
            Ok(floor) => {
                let fell = fallen(before, row.names().len(), floor);
                Ok(self.commit(given.stop, &row, fell, Some(given.name)))
            }
            Err(refusal) => Ok(refusal),
        }
    }
}
