// The console's bench, its lines, and what a line answers.
// What each line of the console says stands in specs/, and what holds of every line and run in proofs/; the calls are in crates
// console_plain, console_aircraft and console_lines.
#![tactic(auto)]

mod names;
mod state;

pub use names::{Command, FlightLine, PlainLine, Reason, Row, Sort, StationLine};
pub use state::Bench;
