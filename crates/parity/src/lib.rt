// Parity and correction of document 01: remainders, overlays, and correction by marked bits.
#![tactic(auto)]

mod correction;
mod division;
mod lengths;
mod marks;
mod overlay;
mod search;
mod syndrome;

pub use correction::correct;
pub use division::remainder;
pub use lengths::{seven_or_fourteen, sized};
pub use marks::bit_at;
pub use overlay::{code_overlay, uplink_overlay};
pub use refusals::Refusal;
