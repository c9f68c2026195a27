// The line `correct HEX MARKS OVERLAY LIMIT`.
ghost use Rattle.std.specs.Prelude.{◌≤◌, ◌≡◌, length, replicate};
ghost use Rattle.text_rules.specs.Put.{Put};
ghost use Rattle.text_rules.specs.Line.{words_of};
ghost use Rattle.parity_rules.specs.Answers.{buffers, fix_said};
ghost use Rattle.console_rules.specs.Parity.{corrected_text, fixed_text, correct_text};

use crate::answers::put_refused;
use crate::words::{bytes_at, number_at};
use places::put_places;
use refusals::Refusal;

// The corrected message, its flips and their places, or the refusal.
fn put_corrected(out: &mut [u8], f: Result<u32, Refusal>, fixed: &[u8], places: &[u8]) -> usize
    requires { length places.now ≤ 124 }
    ensures { Put (corrected_text (fix_said f (buffers fixed.now places.now))) 0 out.old out.new result }
{
    match f {
        Ok(n) => {
            let value = text::put_bytes(out, 0, b"0 ");
            let gap = text::put_hex(out, value, fixed);
            let flips = text::put_byte(out, gap, 32);
            let behind = text::put_decimal(out, flips, n);
            let end = put_places(out, behind, places);
            text::put_byte(out, end, 10)
        }
        Err(r) => put_refused(out, r),
    }
}

// The correction of a message into buffers of zeros that are as long.
fn put_fixed(
    out: &mut [u8],
    msg: &[u8],
    marks: &[u8],
    overlay: u32,
    limit: u32,
    fixed: &mut [u8],
    places: &mut [u8],
) -> usize
    requires { (fixed.old ≡ replicate (length msg.now) 0) × (places.old ≡ replicate (length msg.now) 0) × (length msg.now ≤ 32) }
    ensures { Put (fixed_text msg.now marks.now overlay limit) 0 out.old out.new result }
{
    let f = parity::correct(msg, marks, overlay, limit, fixed, places);
    put_corrected(out, f, fixed, places)
}

// A message, its marks, an overlay and a limit.
pub(crate) fn put_correct(line: &[u8], out: &mut [u8]) -> usize
    ensures { Put (correct_text (words_of line.now)) 0 out.old out.new result }
{
    let mut msg = [0u8; 32];
    let n = bytes_at(line, 1, &mut msg);
    let mut marks = [0u8; 32];
    let m = bytes_at(line, 2, &mut marks);
    let overlay = number_at(line, 3);
    let limit = number_at(line, 4);
    let mut fixed = [0u8; 32];
    let mut flipped = [0u8; 32];
    put_fixed(
        out,
        &msg[..n],
        &marks[..m],
        overlay,
        limit,
        &mut fixed[..n],
        &mut flipped[..n],
    )
}
