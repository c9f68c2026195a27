// The run of a stream as the code carries it.
// What each record does, the lines that it prints and the transcript stand in specs/, and what holds of every run in proofs/; the calls are in crate stream.
#![tactic(auto)]

mod run;

pub use run::Run;
