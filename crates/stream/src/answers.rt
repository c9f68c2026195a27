// The line that every record prints: number, kind, answer.
ghost use Rattle.std.specs.Prelude.{◌≤◌, length};
ghost use Rattle.parity_rules.specs.Places.{places_in};
ghost use Rattle.stream_rules.specs.Lines.{answer_line, reply_line};
ghost use Rattle.stream.specs.Calls.{Within};

use crate::words::{NEWLINE, SPACE, put_number};
use places::put_places;

// Number, kind, answer.
pub fn put_answer(out: &mut [u8], at: usize, n: u32, kind: u8, answer: u8) -> usize
    ensures { Within 36 (answer_line n kind answer) at out.old out.new result }
{
    let at_kind = put_number(out, at, n, SPACE);
    let at_answer = put_number(out, at_kind, kind as u32, SPACE);
    put_number(out, at_answer, answer as u32, NEWLINE)
}

// Number, kind and answer 0 of a taken reply, then its flips, its delay and its places: 12 of these at most, which take four bytes each.
pub(crate) fn put_reply_answer(
    out: &mut [u8],
    at: usize,
    n: u32,
    kind: u8,
    flips: u32,
    delay: i32,
    places: &[u8],
) -> usize
    requires { (length places.now ≤ 14) × (length (places_in places.now) ≤ 12) }
    ensures { Within 108 (reply_line n kind flips delay (places_in places.now)) at out.old out.new result }
{
    let at_kind = put_number(out, at, n, SPACE);
    let at_answer = put_number(out, at_kind, kind as u32, SPACE);
    let at_flips = put_number(out, at_answer, 0, SPACE);
    let at_delay = put_number(out, at_flips, flips, SPACE);
    let at_places = text::put_signed(out, at_delay, delay);
    let end = put_places(out, at_places, places);
    text::put_byte(out, end, NEWLINE)
}
