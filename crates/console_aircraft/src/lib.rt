// The lines of the bench console that make, feed and show the model aircraft, as their very bytes. Their definitions stand in crate console_rules.
#![tactic(auto)]

mod answers;
mod lines;
mod making;
mod queuing;
mod sending;
mod showing;
mod state;

pub use lines::put_flight;
