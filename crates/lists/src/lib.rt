// Definitions and laws on lists and tests, for the crates above; no code of its own.
#![tactic(auto)]
