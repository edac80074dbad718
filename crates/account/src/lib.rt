// The account of a script, as lines of text: what each event answered, and where the requests for a stop are.
#![tactic(auto)]

ghost use Rattle.std.specs.Prelude.{◌≡◌, IfOk, Some, string_bytes};
ghost use Rattle.account.specs.Account.{event_line, events_from, stop_line};

use model::{Outcome, Production};
use std::alloc::{AllocError, Global};
use std::fmt;

// An event by its number, and what it answered.
#[derive(Clone, Copy)]
struct Event {
    number: usize,
    outcome: Outcome,
}

// The number and the answer; a show that is done goes on with stop, serial, time and amount.
impl fmt::Display for Event {
    ghost output = { λ event. Some (event_line event.number event.outcome) };

    fn fmt<W: fmt::Write>(&self, f: &mut fmt::Formatter<W>) -> fmt::Result {
        let number = self.number;
        match self.outcome {
            Outcome::Plain(answer) => {
                let answer = u8::from(answer);
                writeln!(f, "{number} {answer}")
            }
            Outcome::Shown { stop, production } => {
                let Production {
                    serial,
                    time,
                    amount,
                } = production;
                writeln!(f, "{number} 0 {stop} {serial} {time} {amount}")
            }
        }
    }
}

// A line for each event, numbered from 1.
pub fn event_lines(heap: Global, outcomes: &[Outcome]) -> Result<String, AllocError>
    ensures { IfOk result (λ s. string_bytes s ≡ events_from 1 outcomes.now) }
{
    let mut text = String::new(heap);
    for (i, outcome) in outcomes.iter().enumerate() {
        let event = Event {
            number: i + 1,
            outcome: *outcome,
        };
        write!(text, "{event}")?;
    }
    Ok(text)
}

// The line of a stop, empty if it has nothing to tell: what is open, what is pending, what has landed.
pub fn stop_line(
    heap: Global,
    stop: u16,
    held: u32,
    pending: u32,
    landed: u32,
) -> Result<String, AllocError>
    ensures { IfOk result (λ s. string_bytes s ≡ stop_line stop held pending landed) }
{
    match (held, pending, landed) {
        (0, 0, 0) => Ok(String::new(heap)),
        _ => format!(in heap; "stop {stop} {held} {pending} {landed}\n"),
    }
}
