// The bench console: which line a first word names, why a line is not read, and the lines of an input answered one after the other.
// Their definitions stand in crate console_rules.
#![tactic(auto)]

mod console;
mod names;
mod program;
mod reasons;

pub use console::{begin, console_line};
pub use console_rules::Bench;
pub use program::run;
