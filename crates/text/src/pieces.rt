// An input that comes in pieces: a line is held while it comes.
ghost use Rattle.text_rules.specs.Pieces.{Gathers};

use crate::line::{line_after, line_at};
use crate::put::put_bytes;
use text_rules::Gathered;

// Takes a piece from a place on, up to the end of a line or of the piece: what it has of the line goes behind the n bytes that the buffer
// holds of it, as far as there is room.
pub fn gather(line: &mut [u8], n: usize, piece: &[u8], at: usize) -> Gathered
    ensures { Gathers line.old line.new n piece.now at result }
{
    let w = line_at(piece, at);
    let from = w.from;
    let to = w.to;
    let size = put_bytes(line, n, &piece[from..to]);
    Gathered {
        size,
        next: line_after(piece, to),
        ended: to < piece.len(),
    }
}
