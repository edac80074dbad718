// The shadow store: two slots for each row, and a page that says which of them is live.
#![tactic(auto)]

mod shadow;

pub use shadow::{Shadow, ShadowLayout};
