// Two laws of weight, on which a count over a whole run rests.
ghost use Rattle.std.specs.Prelude.{◌≡◌, ℕ};
ghost use Rattle.model.specs.Computation.{Conserves, Totals};

use super::computation::Computation;

// A computation that keeps hold of what it takes until it emits it.
pub trait Conserving: Computation {
    ghost holds: { Self.State → ℕ };

    // What the state holds.
    fn held(state: &Self::State) -> u32
        ensures { Self.Computation.sound state.now → result ≡ holds state.now };

    ghost conserves: { Conserves Self.Computation.operations Self.Computation.sound holds };
}

// A computation that keeps a running total of what it takes.
pub trait Totalling: Computation {
    ghost totals: { Self.State → ℕ };

    // The total so far.
    fn total(state: &Self::State) -> u32
        ensures { Self.Computation.sound state.now → result ≡ totals state.now };

    ghost adds: { Totals Self.Computation.operations Self.Computation.sound totals };
}

// What the state of 32 bytes holds. Like `due_in` and `total_in` it loads and asks; one function of the three would take
// the question as a closure, and be longer.
pub fn held_in<C: Conserving>(bytes: &[u8; 32]) -> u32
    ensures { result ≡ C.holds (C.operations.load bytes.now) }
{
    let state = C::load(bytes);
    C::held(&state)
}

// The total so far of the state of 32 bytes.
pub fn total_in<C: Totalling>(bytes: &[u8; 32]) -> u32
    ensures { result ≡ C.totals (C.operations.load bytes.now) }
{
    let state = C::load(bytes);
    C::total(&state)
}
