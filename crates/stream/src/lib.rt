// The record stream: what each record does, and the lines that it prints, as their very bytes.
#![tactic(auto)]

mod answers;
mod entries;
mod obey;
mod replies;
mod report;
mod run;
mod step;
mod words;

pub use answers::put_answer;
pub use entries::{put_entries, put_entry, put_entry_head};
pub use report::put_report;
pub use run::{ROOM, advance, begin, is_full};
