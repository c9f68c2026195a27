// Frames of document 01: interrogations and replies built and read, the codes of DF 11, and the MB bytes as a part of a buffer.
#![tactic(auto)]

mod addresses;
mod builders;
mod bytes;
mod codes;
mod formats;
mod frame;
mod message;
mod part;
mod read;
mod replies;

pub use addresses::address_of;
pub use builders::{all_call, build, is_address, selective_ranged};
pub use bytes::number_of;
pub use codes::{code_for, code_of};
pub use formats::{drawn, length_of, surveillance};
pub use frames_rules::{Code, Down, Interrogator, Up};
pub use part::mb_part;
pub use read::{read_down, read_up};
pub use refusals::Refusal;
pub use replies::{all_call_reply, reply};
