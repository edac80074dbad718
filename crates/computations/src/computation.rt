// What a computation offers to a node, and what it owes.
ghost use Rattle.std.specs.Prelude.{◌≡◌, ℕ};
ghost use Rattle.model.specs.Computation.{Computation as Operations, Lawful, Takes, Fires};

use model::Verdict;

// A computation brings its own kind of state, which it writes into 32 bytes. Each method answers as the operation of
// the same name; the operations are lawful at every sound state, and every 32 bytes are those of a sound state.
// `verdict` and `take` are given `w, time, amount` one by one, as the operations take them: an emission is a pair of time
// and amount.
pub trait Computation {
    type State: Copy;

    ghost operations: { Operations Self.State };

    ghost sound: { Self.State → Type 0 };

    // The second from which on the state takes records.
    fn mark(state: &Self::State) -> u32
        ensures { sound state.now → result ≡ operations.mark state.now };

    // The second at which the state wants to fire, if it does.
    fn due(state: &Self::State) -> Option<u32>
        ensures { sound state.now → result ≡ operations.due state.now };

    // Whether an amount at a time is too early, too much or fine, at a watermark.
    fn verdict(state: &Self::State, w: u32, time: u32, amount: u16) -> Verdict
        ensures { sound state.now → result ≡ operations.verdict state.now w time amount };

    // The state after an amount was taken, and what it emits: a time and an amount.
    fn take(
        state: &Self::State,
        w: u32,
        time: u32,
        amount: u16,
    ) -> (Self::State, Option<(u32, u16)>)
        requires { Takes operations sound state.now w time amount }
        ensures { result ≡ operations.take state.now w time amount };

    // The state after it fired, and what it emits.
    fn fire(state: &Self::State) -> (Self::State, Option<(u32, u16)>)
        requires { (w : ℕ) × (d : ℕ) × Fires operations sound state.now w d }
        ensures { result ≡ operations.fire state.now };

    fn load(bytes: &[u8; 32]) -> Self::State
        ensures { result ≡ operations.load bytes.now };

    fn store(state: &Self::State) -> [u8; 32]
        ensures { sound state.now → result ≡ operations.store state.now };

    ghost lawful: { Lawful operations sound };
}
