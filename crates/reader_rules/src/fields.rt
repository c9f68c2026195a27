// What stands in bodies, where it is no number and no type of a plan.

// The address of a target with near and far.
#[derive(Clone, Copy)]
pub struct Edges {
    pub address: u32,
    pub near: u16,
    pub far: u16,
}

// A reply: its entry and tag, and the parts of the stream [message, marks) and [marks, end) that hold message and marks.
#[derive(Clone, Copy)]
pub struct Reply {
    pub entry: u8,
    pub tag: u32,
    pub message: usize,
    pub marks: usize,
    pub end: usize,
}
