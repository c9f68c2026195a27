// Requests, setups, entries and plans. What document 01 says of them under "Ticks, windows, shares" stands in specs/, and the
// theorems of demand 3 in proofs/; the calls are in crate planner.
#![tactic(auto)]

mod entry;
mod plan;
mod request;
mod setup;

pub use entry::{Entry, Status};
pub use plan::Planned;
pub use request::{Ask, Asks, Request};
pub use setup::Setup;
