// The lines of the bench console that need no state, as their very bytes: each is one call of the library, and its answer in text.
// Their definitions stand in crate console_rules.
#![tactic(auto)]

mod answers;
mod building;
mod code;
mod correction;
mod explaining;
mod feet;
mod help;
mod lines;
mod reading;
mod reckoning;
mod values;
mod words;

pub use answers::put_refusal;
pub use lines::put_plain;
pub use words::{bytes_at, number_at, says_at};
