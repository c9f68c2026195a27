// The state of a transponder. What its calls answer stands in specs/, and what holds of every history of calls in proofs/;
// the calls themselves are in crate model.
#![tactic(auto)]

mod state;

pub use state::{Holder, Messages, Sent, Timers, Transponder};
