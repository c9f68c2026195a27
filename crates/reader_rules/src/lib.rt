// What is read from a stream: what stands at a place, the parts of bodies, and the reader. What document 01 says of records
// stands in specs/; the calls are in crate reader.
#![tactic(auto)]

mod fields;
mod reader;
mod reading;

pub use fields::{Edges, Reply};
pub use reader::Reader;
pub use reading::Found;
