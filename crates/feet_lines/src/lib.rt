// The lines of the program feet, as their very bytes, and its loop over them. Their definitions stand in crate console_rules.
#![tactic(auto)]

mod lines;
mod program;

pub use lines::{feet_line, put_answer};
pub use program::run;
