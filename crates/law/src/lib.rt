// The law: what can never happen to a count, whatever befalls the two boxes and the link between them.
//
// There is no code here, only what the code above is held to. The folder specs/ is read in this order: `Rows` (what taking,
// firing and clearing make of a stop's row), `Stops` (what is asked of all stops together), `Node` and `Pair` (the calls, as
// functions that give the answer and what is left), `Run` (runs of calls, and what was taken, made and landed in them) and
// `Law`. Each function below does nothing: its contract is a theorem, and the crate is refused without the proof.
#![tactic(auto)]

ghost use Rattle.std.specs.Prelude.{◌≡◌, ℕ, ◌<◌, ◌≤◌, ◌↔◌, List, Some, None};
ghost use Rattle.model.specs.Computation.{Computation, Conserves, Totals};
ghost use Rattle.model.specs.Row.{Row};
ghost use Rattle.model.specs.declared.record.Production.{Production};
ghost use Rattle.law.specs.Bests.{FirstDue, Crowd, Lows};
ghost use Rattle.law.specs.Fits.{EveryRowFits};
ghost use Rattle.law.specs.Law.{EveryRun, EveryCount, EveryTelling};
ghost use Rattle.law.specs.Node.{Keeps};
ghost use Rattle.model.specs.Row.{oldest};
ghost use Rattle.law.specs.Stops.{earliest, greatest, lowest};

// At every moment of every run from a new pair: no record name was taken twice for one stop; for each stop, what the spotter
// took and then what is waiting is in order all that the collector made, no serial twice; the low watermark has not fallen,
// and no waiting production is late; and the collector, while on, has exactly the stops with something pending in its queue.
pub fn every_run_keeps_the_law()
    ensures { EveryRun Keeps }
{}

// And what the collector has taken is what its states hold open, what is waiting, and what is in the spotter's totals.
pub fn every_run_counts_once()
    ensures { EveryCount Keeps Conserves Totals }
{}

// A run is told on, call by call, with the law at its every moment.
pub fn every_run_goes_on()
    ensures { EveryTelling Keeps }
{}

// The earliest due is at the stop that no other is due before, nor a lower one with it.
pub fn earliest_due_is_the_first()
    ensures found { (c : Computation (List ℕ)) (rows : ℕ → Row) (s t : ℕ) → FirstDue c rows s t → earliest c rows ≡ Some (s, t) }
    ensures none { (c : Computation (List ℕ)) (rows : ℕ → Row) → ((q : ℕ) → q < 32 → c.due (rows q).state ≡ None) → earliest c rows ≡ None }
{}

// The production shown is a stop's oldest with the greatest amount, and no lower stop's is as great.
pub fn greatest_production_is_the_crowd()
    ensures found { (rows : ℕ → Row) (s : ℕ) (x : Production) → Crowd rows s x → greatest rows ≡ Some (s, x) }
    ensures none { (rows : ℕ → Row) → ((q : ℕ) → q < 32 → oldest (rows q).pending ≡ None) → greatest rows ≡ None }
{}

// The low watermark is the greatest number that is at most the watermark, all pending times and all dues.
pub fn low_watermark_is_the_greatest_bound()
    ensures { (c : Computation (List ℕ)) (rows : ℕ → Row) (w b : ℕ) → (b ≤ lowest c rows w) ↔ Lows c rows w b 32 }
{}

// Rows fit their format, at a new node and after every call: at most four pending productions, at most forty names, and
// no number that the bytes of a row could not say.
pub fn every_row_fits_its_format()
    ensures { EveryRowFits Keeps }
{}
