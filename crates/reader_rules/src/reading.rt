// What stands at a place of the stream.

// Nothing; an unknown kind; a kind whose body is cut; a record with its body's place and the place after it.
#[derive(Clone, Copy)]
pub enum Found {
    End,
    Unknown(u8),
    Cut(u8),
    Whole { kind: u8, body: usize, next: usize },
}
