// The calls of the roll-call planner: exchanges, shares and plans. Their definitions, those of document 01's "Ticks, windows,
// shares", stand in crate planner_rules.
#![tactic(auto)]

mod entry;
mod exchange;
mod plan;
mod search;
mod shares;

pub use entry::entry_at;
pub use exchange::Exchange;
pub use plan::make_plan;
pub use planner_rules::{Ask, Asks, Entry, Planned, Request, Setup, Status};
pub use shares::judge;
