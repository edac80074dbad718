// The counter adds up the requests of each minute. Four minutes are open at a time; a minute fires once the watermark
// has reached its end, and emits its sum.
//
// `state` is what it keeps of a stop and `layout` its bytes, `minutes` finds its way among the open minutes, `counter` is
// the computation, and `law` says that no minute loses or gains a request.
#![tactic(auto)]

mod counter;
mod law;
mod layout;
mod minutes;
mod state;

pub use counter::Counter;
pub use law::minutes_add_up;
pub use state::CounterState;
