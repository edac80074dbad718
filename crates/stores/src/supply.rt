// The power that a store is restarted with, as it comes and as it is once it is judged.
ghost use Rattle.std.specs.Prelude.{◌≡◌, true, false, MatchResult};
ghost use Rattle.model.specs.Store.{restart_fits};
ghost use Rattle.model.specs.declared.answer.Answer.TheVariants.{OutOfRange};
ghost use Rattle.stores.specs.Tears.{tear_number};

use super::card::{Page, as_page};
use super::tear::Tear;
use model::Answer;

// The writes that power lasts, the number of a tear, and the page that a write which fails as junk leaves.
#[derive(Clone, Copy)]
pub struct Supply<'a> {
    pub left: u32,
    pub tear: u8,
    pub junk: &'a [u8],
}

// The same, with a tear that there is and a junk page of a page's size.
#[derive(Clone, Copy)]
pub struct Charge<'a> {
    pub left: u32,
    pub tear: Tear,
    pub junk: &'a Page,
}

impl<'a> TryFrom<Supply<'a>> for Charge<'a> {
    type Error = Answer;

    ghost try_from_gives = { λ supply r. MatchResult r (λ charge. (restart_fits supply.tear supply.junk.now ≡ true) × (charge.left ≡ supply.left) × (tear_number charge.tear ≡ supply.tear) × (charge.junk.now ≡ supply.junk.now)) (λ e. (restart_fits supply.tear supply.junk.now ≡ false) × (e ≡ OutOfRange)) };

    fn try_from(supply: Supply<'a>) -> Result<Charge<'a>, Answer> {
        let tear = Tear::try_from(supply.tear)?;
        let junk = as_page(supply.junk).ok_or(Answer::OutOfRange)?;
        Ok(Charge {
            left: supply.left,
            tear,
            junk,
        })
    }
}
