// What the write that power fails at leaves in its page.
ghost use Rattle.std.specs.Prelude.{◌≡◌, ◌<◌, MatchResult};
ghost use Rattle.model.specs.declared.answer.Answer.TheVariants.{OutOfRange};
ghost use Rattle.stores.specs.Tears.{tear_number};

use model::Answer;

#[derive(Clone, Copy, PartialEq, Eq, Debug)]
pub enum Tear {
    Old,
    New,
    Junk,
}

// The tear of a number, which is 0, 1 or 2.
impl TryFrom<u8> for Tear {
    type Error = Answer;

    ghost try_from_gives = { λ number r. MatchResult r (λ tear. tear_number tear ≡ number) (λ e. (2 < number) × (e ≡ OutOfRange)) };

    fn try_from(number: u8) -> Result<Tear, Answer> {
        match number {
            0 => Ok(Tear::Old),
            1 => Ok(Tear::New),
            2 => Ok(Tear::Junk),
            _ => Err(Answer::OutOfRange),
        }
    }
}
