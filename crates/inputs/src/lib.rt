// What the programs read and write: the file that is named to them, the lines of an input of any length, and a write that says when it fails.
#![tactic(auto)]

mod feed;
mod files;

pub use feed::{Feed, next_line, start};
pub use files::{Source, open, print, read_full, tell};
