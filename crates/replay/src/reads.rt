// The calls of a script, up to its end or its first fault.
ghost use Rattle.std.specs.Prelude.{◌≡◌, IfOk};
ghost use Rattle.replay.specs.Script.{calls_in, fault_in, placed};

use frames::{Misfit, Reader};
use model::Call;
use std::alloc::{AllocError, Global};

#[derive(Drop)]
pub struct Script<'a> {
    pub calls: Vec<Call<'a>>,
    pub fault: Option<Misfit>,
}

pub fn read_script<'a>(heap: Global, script: &'a [u8]) -> Result<Script<'a>, AllocError>
    ensures calls { IfOk result (λ s. s.calls.items ≡ calls_in script.now) }
    ensures fault { IfOk result (λ s. placed s.fault ≡ fault_in script.now) }
{
    let mut calls = Vec::new(heap);
    let mut reader = Reader::new(script);
    while let Some(next) = reader.next_call() {
        match next {
            Ok(event) => calls.push(event.call)?,
            // No `?`, which would lose the calls before the fault.
            Err(misfit) => {
                return Ok(Script {
                    calls,
                    fault: Some(misfit),
                });
            }
        }
    }
    Ok(Script { calls, fault: None })
}
