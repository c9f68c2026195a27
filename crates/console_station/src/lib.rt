// The lines of the bench console that hand their numbers to the station, as their very bytes. Their definitions stand in crate console_rules.
#![tactic(auto)]

mod answers;
mod entries;
mod held;
mod lines;
mod listing;
mod planning;
mod replying;
mod reporting;
mod requests;
mod setting;
mod targets;

pub use lines::put_station;
