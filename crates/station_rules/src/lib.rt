// The state of a station. What its calls answer stands in specs/, and what holds of every history of calls in proofs/;
// the calls themselves are in crate station.
#![tactic(auto)]

mod state;

pub use state::{Heard, Plan, Reported, Station, Taken, Target, Targets, Waiting};
