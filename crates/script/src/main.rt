// Prints the account of the script on standard input: the answer of each event, the fault that ended them, and where the
// requests for each stop are after both boxes were restarted.
#![tactic(auto)]

use boxes::account_of;
use std::io::Read;

// What lies past so many bytes is not judged.
const MOST: usize = 65536;

fn main(rt: HostRuntime) -> anyhow::Result<()> {
    let mut script = Vec::new(rt.alloc());
    rt.stdin().take(MOST as u64 + 1).read_to_end(&mut script)?;
    if script.len() > MOST {
        eprintln!(rt; "script: only the first {MOST} bytes are read")?;
        script.truncate(MOST);
    }
    rt.print(account_of(rt.alloc(), script.as_slice())?)?;
    Ok(())
}
