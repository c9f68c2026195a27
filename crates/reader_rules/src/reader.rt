// The reader: the stream and its place together.
#[derive(Clone, Copy)]
pub struct Reader<'a> {
    pub stream: &'a [u8],
    pub place: usize,
}
