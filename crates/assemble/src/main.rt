// Turns the lines of text on standard input into frames on standard output. If a line is wrong, it is named on standard
// error and nothing is written.
#![tactic(auto)]

use assembly::assemble;
use std::io;
use std::io::{Error, ErrorKind, Read, Write};

fn main(rt: HostRuntime) -> io::Result<()> {
    let mut text = Vec::new(rt.alloc());
    rt.stdin().read_to_end(&mut text)?;
    match assemble(rt.alloc(), text.as_slice()) {
        Ok(script) => rt.stdout().write_all(script.as_slice()),
        Err(failure) => {
            eprintln!(rt; "{failure}")?;
            Err(Error::new(ErrorKind::InvalidInput, "a line is wrong"))
        }
    }
}
