// Runs that are played to the end: the law at work with the counter and the detector, and what goes wrong by wrong rules.
#![tactic(auto)]

ghost use Rattle.std.specs.Prelude.{◌≡◌, map};
ghost use Rattle.model.specs.Answers.{answer_number, outcome_answer};
ghost use Rattle.law.specs.Pair.{happens};
ghost use Rattle.runs.specs.Counting.{CounterLaw, counting, open_in, landed_in};
ghost use Rattle.runs.specs.Delivery.{Places, delivery_calls, delivery_outcomes, delivery_places};
ghost use Rattle.runs.specs.Play.{Plays};
ghost use Rattle.runs.specs.Worked.{worked_calls, worked_outcomes};
ghost use Rattle.runs.specs.Wrong.{Breaks, hasty, forgetful, dueless};

// The whole law holds of the counter and the detector, over any two stores, with nothing left to assume.
pub fn counter_and_detector_keep_the_law()
    ensures { CounterLaw open_in landed_in }
{}

// The answers of the worked run: a record handed in twice, a minute fired, its production sent, doubled on the way,
// delivered twice and acknowledged twice. They are numbers, as an account prints them.
pub fn worked_answers() -> [u8; 13]
    ensures plays { Plays (happens counting) worked_calls worked_outcomes }
    ensures answers { result ≡ map (λ o. answer_number (outcome_answer o)) worked_outcomes }
{
    [0, 0, 0, 4, 0, 0, 0, 0, 0, 4, 0, 13, 0]
}

// One delivery that is lost, sent again and doubled: the outcomes, and where the requests are at each moment.
pub fn a_delivery_moment_by_moment()
    ensures plays { Plays (happens counting) delivery_calls delivery_outcomes }
    ensures places { Places delivery_calls delivery_places }
{}

// An acknowledgement that clears whatever is oldest loses a production.
pub fn clearing_any_breaks_the_law()
    ensures { Breaks counting (hasty counting) }
{}

// Names that are dropped one second too early let a record in twice.
pub fn forgetting_early_breaks_the_law()
    ensures { Breaks counting (forgetful counting) }
{}

// A low watermark that looks at no due makes a production late.
pub fn passing_dues_breaks_the_law()
    ensures { Breaks counting (dueless counting) }
{}
