// The transponder model of document 01: made, given messages to queue, and frames to take; lockout and Comm-B.
#![tactic(auto)]

mod all_calls;
mod closeouts;
mod frames_taken;
mod lapses;
mod lockouts;
mod making;
mod messages;
mod reservations;
mod responses;
mod selective;
mod sending;
mod timers;

pub use frames_taken::take;
pub use making::make;
pub use messages::{count, queue};
pub use model_rules::{Holder, Messages, Sent, Timers, Transponder};
pub use refusals::Refusal;
pub use sending::bytes;
