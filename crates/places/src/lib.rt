// The places of a mark buffer as text: the numbers of its marked bits, rising, with a space before each.
#![tactic(auto)]

mod text_of;

pub use text_of::put_places;
