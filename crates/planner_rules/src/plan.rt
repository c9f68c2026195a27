// What a plan answers.
use crate::entry::Entry;
use crate::request::Ask;

// What is placed, in the order placed, and what still waits, the oldest first.
#[derive(Clone, Copy)]
pub struct Planned {
    pub placed: usize,
    pub entries: [Entry; 128],
    pub waiting: usize,
    pub asks: [Ask; 128],
}
