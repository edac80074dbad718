// The listing of a script: for each frame its number, its offset and its call as a line; a fault ends it.
ghost use Rattle.std.specs.Prelude.{◌≡◌, IfOk, string_bytes};
ghost use Rattle.lines.specs.Listing.{entry_of, fault_of, listed};

use super::line::Line;
use frames::Reader;
use model::Call;
use std::alloc::{AllocError, Global};

fn entry(heap: Global, number: usize, offset: usize, call: Call<'_>) -> Result<String, AllocError>
    ensures { IfOk result (λ s. string_bytes s ≡ entry_of number offset call.entry) }
{
    let line = Line { call };
    format!(in heap; "{number} {offset} {line}\n")
}

// The line of a fault: its number, and the offset of the frame.
pub fn fault_line(heap: Global, number: u8, offset: usize) -> Result<String, AllocError>
    ensures { IfOk result (λ s. string_bytes s ≡ fault_of number offset) }
{
    format!(in heap; "fault {number} {offset}\n")
}

pub fn list_script(heap: Global, script: &[u8]) -> Result<String, AllocError>
    ensures { IfOk result (λ s. string_bytes s ≡ listed script.now) }
{
    let mut text = String::new(heap);
    for (i, next) in Reader::new(script).enumerate() {
        let line = match next {
            Ok(event) => entry(heap, i + 1, event.offset, event.call)?,
            Err(misfit) => fault_line(heap, u8::from(misfit.fault), misfit.offset)?,
        };
        text.push_str(line.as_str())?;
    }
    Ok(text)
}
