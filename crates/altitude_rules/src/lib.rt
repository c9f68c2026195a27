// What AC says of the altitude. The altitude code of Annex 10 stands in specs/, and what holds of all its codes in proofs/; the calls are in crate altitude.
#![tactic(auto)]

mod code;

pub use code::Altitude;
