// Lists the script on standard input: each frame's number, offset and line, up to the first fault.
#![tactic(auto)]

use lines::list_script;
use std::io;
use std::io::Read;

// What lies past so many bytes is not read.
const MOST: u64 = 65536;

fn main(rt: HostRuntime) -> io::Result<()> {
    let mut script = Vec::new(rt.alloc());
    rt.stdin().take(MOST).read_to_end(&mut script)?;
    let text = list_script(rt.alloc(), script.as_slice())?;
    rt.print(text)
}
