// What the calls on frames find. What a frame holds, and how it is built and read, stands in specs/, and the theorems in proofs/;
// the calls are in crate frames.
#![tactic(auto)]

mod answers;

pub use answers::{Code, Down, Interrogator, Up};
