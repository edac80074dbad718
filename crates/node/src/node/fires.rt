// The earliest due fires.
ghost use Rattle.std.specs.Prelude.{◌≡◌, ◌<◌, true};
ghost use Rattle.model.specs.Limits.{stops};
ghost use Rattle.model.specs.OnBytes.{on_bytes};
ghost use Rattle.law.specs.Node.{fire, fire_as};
ghost use Rattle.model.specs.Row.{room_for_one};
ghost use Rattle.steps.specs.Steps.{Reached};
ghost use Rattle.agenda.specs.Meaning.{due_at, earliest};
ghost use Rattle.node.specs.Promises.{Answers, AnswersIf, due_by};

use super::{Damaged, Node};
use computations::Computation;
use model::Answer;
use names::NameSet;
use steps::fire_row;
use stores::Store;

impl<S: Store, N: NameSet, C: Computation> Node<S, N, C> {
    // Fires the earliest due that the watermark has reached, ties to the lowest stop.
    pub fn fire(&mut self) -> Result<Answer, Damaged>
        ensures { Answers S.Store N.NameSet C.Computation self.old self.new result (λ kit free n. fire kit free n) }
    {
        if !self.is_on() {
            return Ok(Answer::Off);
        }
        match self.due_stop() {
            Some(stop) => self.fire_stop(stop),
            None => Ok(Answer::Nothing),
        }
    }

    // The stop whose due is the earliest, if the watermark has reached it.
    fn due_stop(&self) -> Option<u16>
        ensures { result ≡ due_by self.now.watermark (earliest (due_at self.now.timers)) }
    {
        let (stop, due) = self.timers.first()?;
        (due <= self.watermark).then_some(stop)
    }

    // Fires the due of a stop that the watermark has reached.
    fn fire_stop(&mut self, stop: u16) -> Result<Answer, Damaged>
        ensures { AnswersIf S.Store N.NameSet C.Computation self.old self.new (λ n. (n.power.on ≡ true) × (stop < stops) × Reached (on_bytes C.operations) n.w (n.row stop)) result (λ kit free n. fire_as kit free stop (room_for_one (n.row stop)) n) }
    {
        let mut row = self.row(stop)?;
        // A refusal turns from the step's error into the node's answer; only a damaged row is an error here.
        match fire_row::<C>(&mut row, self.watermark) {
            Ok(floor) => Ok(self.commit(stop, &row, Some(floor), None)),
            Err(refusal) => Ok(refusal),
        }
    }
}
