// Makes the script of a text.
ghost use Rattle.std.specs.Prelude.{◌≡◌, ◌++◌, OnOk};
ghost use Rattle.assembly.specs.Assembled.{assembled, bytes_of};
ghost use Rattle.assembly.specs.Answers.{Answers};

use super::failure::Failure;
use frames::write_frame;
use model::Call;
use parser::parse_line;
use std::alloc::{AllocError, Global};

// No frame is longer than a hand in's.
const LONGEST: usize = 18;

fn add_frame(script: &mut Vec<u8>, call: Call<'_>) -> Result<(), AllocError>
    ensures { OnOk result (script.new.items ≡ script.old.items ++ bytes_of call.entry) }
{
    let mut buffer = [0; LONGEST];
    match write_frame(call, &mut buffer) {
        Ok(size) => script.extend_from_slice(&buffer[0..size]),
        // A call that a line says always has a frame that fits; another call adds nothing.
        Err(_) => Ok(()),
    }
}

pub fn assemble<'a>(heap: Global, text: &'a [u8]) -> Result<Vec<u8>, Failure<'a>>
    ensures { Answers result (assembled text.now) }
{
    let mut script = Vec::new(heap);
    for (i, line) in text.split(|byte| *byte == b'\n').enumerate() {
        let said = parse_line(line).map_err(|misread| Failure::BadLine {
            number: i + 1,
            misread,
        })?;
        if let Some(call) = said {
            add_frame(&mut script, call)?;
        }
    }
    Ok(script)
}
