// Calls of the libraries for programs in other languages: numbers as themselves, a slice as pointer and length.
#![tactic(auto)]

mod messages;
mod planning;
