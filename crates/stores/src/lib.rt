// Rows that survive a power cut at any write.
//
// `card` is the medium, pages and the power that writes them, and `tear` what a failing write leaves. `store` says what
// a store is: rows of 512 bytes and power, whatever the card under it goes through. `supply` is the power that it comes
// back with. `change` uses any store.
#![tactic(auto)]

mod card;
mod change;
mod layout;
mod on_card;
mod store;
mod supply;
mod tear;

pub use card::{Card, Page, Unfit, as_page};
pub use change::change_byte;
pub use layout::Layout;
pub use on_card::OnCard;
pub use store::Store;
pub use supply::{Charge, Supply};
pub use tear::Tear;
