// The worked cases of the subject, as one statement over the definitions that the contracts of the other crates use.
// A definition that is changed breaks it.
#![tactic(auto)]

ghost use Rattle.cases.specs.Worked.{Worked};

pub fn worked_cases()
    ensures { Worked }
{}
