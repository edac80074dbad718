// The parts of an account, put together.
ghost use Rattle.std.specs.Prelude.{◌≡◌, ◌++◌, IfOk, string_bytes};
ghost use Rattle.account.specs.Account.{events_from};
ghost use Rattle.replay.specs.Account.{fault_text};
ghost use Rattle.replay.specs.Script.{placed};

use account::event_lines;
use frames::Misfit;
use lines::fault_line;
use model::Outcome;
use std::alloc::{AllocError, Global};

// A line for each event, the fault that ended them, and what is told of the stops.
pub fn account_text(
    heap: Global,
    outcomes: &[Outcome],
    fault: Option<Misfit>,
    stops: &str,
) -> Result<String, AllocError>
    ensures { IfOk result (λ t. string_bytes t ≡ events_from 1 outcomes.now ++ (fault_text (placed fault) ++ stops.now)) }
{
    let mut text = event_lines(heap, outcomes)?;
    let fault = fault_text(heap, fault)?;
    text.push_str(fault.as_str())?;
    text.push_str(stops)?;
    Ok(text)
}

fn fault_text(heap: Global, fault: Option<Misfit>) -> Result<String, AllocError>
    ensures { IfOk result (λ t. string_bytes t ≡ fault_text (placed fault)) }
{
    match fault {
        Some(misfit) => fault_line(heap, u8::from(misfit.fault), misfit.offset),
        None => Ok(String::new(heap)),
    }
}
