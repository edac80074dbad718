// A third computation, as unpleasant as the laws allow: it emits the largest amount at every take and every fire, its
// mark runs as far as it may, and it is due again after each fire. Whatever serves every computation has to serve it.
#![tactic(auto)]

mod eager;
mod layout;
mod state;

pub use eager::Eager;
pub use state::EagerState;
