// A script is replayed.
ghost use Rattle.std.specs.Prelude.{◌≡◌, ◌++◌, IfOk, IfErr, string_bytes};
ghost use Rattle.law.specs.Pair.{Pair as LawPair};
ghost use Rattle.pair.specs.Shows.{Shows};
ghost use Rattle.pair.specs.Tallies.{measured};
ghost use Rattle.pair.specs.declared.pair.Stopped.TheVariants.{Damaged as DamagedRow};
ghost use Rattle.replay.specs.Account.{Replays, last_calls, power_on};
ghost use Rattle.replay.specs.Script.{calls_in, fault_in, placed};

use super::reads::{Script, read_script};
use super::stop_lines::stop_lines;
use super::texts::account_text;
use computations::{Conserving, Totalling};
use model::{Call, Junk};
use names::NameSet;
use pair::{Pair, Stopped};
use std::alloc::{AllocError, Global};
use stores::Store;

// Makes the calls of a script up to its end or its first fault, restarts both nodes, and tells what happened.
pub fn replay<S: Store, N: NameSet, C: Conserving, T: Store, O: NameSet, D: Totalling>(
    heap: Global,
    pair: &mut Pair<S, N, C, T, O, D>,
    script: &[u8],
) -> Result<String, Stopped>
    ensures account { IfOk result (λ t. Replays S.Store N.NameSet C.Computation T.Store O.NameSet D.Computation (measured C.Computation C.holds) (measured D.Computation D.totals) pair.old pair.new script.now (string_bytes t)) }
    ensures undamaged { IfErr result (λ e. e ≡ DamagedRow → (p : LawPair) → Shows S.Store N.NameSet C.Computation T.Store O.NameSet D.Computation pair.old p → ⊥) }
{
    let script = whole_script(heap, script)?;
    let outcomes = pair.run(heap, &script.calls)?;
    let stops = stop_lines(heap, pair)?;
    let events = outcomes.len() - 2;
    let text = account_text(heap, &outcomes[0..events], script.fault, stops.as_str())?;
    Ok(text)
}

// The calls of a script, and behind them the restarts of both nodes.
fn whole_script<'a>(heap: Global, script: &'a [u8]) -> Result<Script<'a>, AllocError>
    ensures calls { IfOk result (λ s. s.calls.items ≡ calls_in script.now ++ last_calls) }
    ensures fault { IfOk result (λ s. placed s.fault ≡ fault_in script.now) }
{
    let mut script = read_script(heap, script)?;
    script.calls.push(power_on(0))?;
    script.calls.push(power_on(1))?;
    Ok(script)
}

fn power_on<'a>(node: u8) -> Call<'a>
    ensures { result ≡ power_on node }
{
    Call::Restart {
        node,
        left: 100,
        tear: 0,
        junk: Junk::Fill(0),
    }
}
