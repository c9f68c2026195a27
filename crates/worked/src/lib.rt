// Worked examples of the transponder and of the stream, computed from the definitions and held to document 01; no code of its own.
// They stand apart so that a wrong definition is refused in the crates below without working them out.
#![tactic(auto)]
