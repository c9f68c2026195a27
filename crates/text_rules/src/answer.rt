// What the calls that read a line answer.

// A part of a line: from the place `from` up to, not including, `to`.
#[derive(Clone, Copy)]
pub struct Span {
    pub from: usize,
    pub to: usize,
}

// A piece of the input was taken up to the end of a line or of the piece: how many bytes of the line are held, the next place in the piece, and
// whether the line ended.
#[derive(Clone, Copy)]
pub struct Gathered {
    pub size: usize,
    pub next: usize,
    pub ended: bool,
}
