// The lines of an input that comes in pieces, one for each call, in fixed memory.
ghost use Rattle.std.specs.Prelude.{min, ◌≡◌, length, ◌≤◌};
ghost use Rattle.inputs.specs.Feeds.{at_start, at_end, Fed};
ghost use Rattle.io.specs.Counts.{IsPrefixLen};

use crate::files::tell;
use std::io::Read;

// Where the reading stands: the bytes of the piece and the place in it, the bytes held of the line, whether they are a whole line, and whether
// more may come. What is read is lent to each call beside it.
#[derive(Clone, Copy)]
pub struct Feed {
    pub got: usize,
    pub at: usize,
    pub size: usize,
    pub is_line: bool,
    pub more: bool,
}

// Before the first line.
pub fn start() -> Feed
    ensures { result ≡ at_start }
{
    Feed {
        got: 0,
        at: 0,
        size: 0,
        is_line: false,
        more: true,
    }
}

// Reads the next piece. Where that fails standard error says so, and the input is at its end.
fn read_piece<R: Read>(rt: &impl Eprint, source: &mut R, piece: &mut [u8]) -> usize
    ensures { IsPrefixLen result piece.new }
{
    match source.read(piece) {
        Ok(got) => got,
        Err(error) => {
            tell(rt, "the input", &error);
            0
        }
    }
}

// The bytes of a piece that a state speaks of, and no more than the piece has.
pub(crate) fn within(got: usize, piece: &[u8]) -> usize
    ensures prefix_len { IsPrefixLen result piece.now }
    ensures value { result ≡ min got (length piece.now) }
{
    if piece.len() < got {
        return piece.len();
    }
    got
}

// The input is at its end: a line begun without its newline is a line.
fn ended(size: usize) -> Feed
    ensures { result ≡ at_end size }
{
    Feed {
        got: 0,
        at: 0,
        size,
        is_line: 0 < size,
        more: false,
    }
}

// The next line stands at the start of the buffer, as much of it as there is room for; behind the end of the input nothing is read. Nothing says
// that an input ends, so the turns are bounded.
pub fn next_line<R: Read>(
    rt: &impl Eprint,
    source: &mut R,
    f: Feed,
    piece: &mut [u8],
    line: &mut [u8],
) -> Feed
    ensures prefix_len { IsPrefixLen result.size line.new }
    ensures fed { Fed f piece.old piece.new line.old line.new result }
{
    if !f.more {
        return ended(0);
    }
    let mut got = within(f.got, piece);
    let mut at = f.at;
    let mut size: usize = 0;
    for _ in 0..u64::MAX {
        let g = text::gather(line, size, &piece[..got], at);
        size = g.size;
        if g.ended {
            return Feed {
                got,
                at: g.next,
                size,
                is_line: true,
                more: true,
            };
        }
        got = read_piece(rt, source, piece);
        at = 0;
        if got == 0 {
            return ended(size);
        }
    }
    ended(size)
}
