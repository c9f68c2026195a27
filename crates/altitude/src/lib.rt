// The calls of the altitude code of Annex 10: from the 13 bits of AC to feet, and the way back. Their definitions stand in crate altitude_rules.
#![tactic(auto)]

mod code;
mod way_back;

pub use altitude_rules::Altitude;
pub use code::read;
pub use way_back::write;
