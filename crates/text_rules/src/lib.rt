// What the calls that read a line answer. How text is laid and lines are read stands in specs/, and the laws in proofs/; the calls are in crate text.
#![tactic(auto)]

mod answer;

pub use answer::{Gathered, Span};
