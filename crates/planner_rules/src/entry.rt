// A plan's entry. Its number is its place in the plan.
use crate::request::Ask;

// What has become of an entry. As an enum no entry can have a fourth state; a field of this type is copied before it is matched,
// and the entry made anew where it changes.
#[derive(Clone, Copy)]
pub enum Status {
    Open,
    Answered,
    Withdrawn,
}

// A request placed at a start, with near and far as they were.
#[derive(Clone, Copy)]
pub struct Entry {
    pub ask: Ask,
    pub start: u16,
    pub status: Status,
}
