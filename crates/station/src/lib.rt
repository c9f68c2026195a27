// The calls of the station of document 01: targets, requests, plans in force, replies and ages. Their definitions stand in crate station_rules.
#![tactic(auto)]

mod ages;
mod calls;
mod correcting;
mod entries;
mod planning;
mod ranges;
mod replies;
mod setting;
mod targets;
mod waiting;
mod windows;

pub use calls::{add_target, move_target, remove_target, report_on, take_request};
pub use entries::entry_count;
pub use planning::plan_period;
pub use replies::take_reply;
pub use setting::{before_setup, set_up};
pub use station_rules::{Heard, Plan, Reported, Station, Taken, Target, Targets, Waiting};
