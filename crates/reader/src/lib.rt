// The calls that read records: their kinds and lengths, what stands in their bodies, and the reader that carries the stream and
// its place. Their definitions stand in crate reader_rules.
#![tactic(auto)]

mod fields;
mod kinds;
mod reader;
mod reading;

pub use fields::{address_at, edges_at, reply_at, request_at, setup_at, tag_at};
pub use kinds::{body_length, message_length};
pub use reader::{found_at, found_by, next, reader_at};
pub use reader_rules::{Edges, Found, Reader, Reply};
pub use reading::record_at;
