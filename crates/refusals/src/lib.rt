// Why a call is refused: a case for each number that document 01 and the requests give, with the number in one definition.
#![tactic(auto)]

mod refusal;

pub use refusal::{Refusal, number_given};
