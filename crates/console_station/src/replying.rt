// The line `reply ENTRY TAG HEX MARKS`.
ghost use Rattle.std.specs.Prelude.{◌≤◌, ◌≡◌, length, replicate};
ghost use Rattle.text_rules.specs.Put.{Put};
ghost use Rattle.console_rules.specs.Texts.{done_text};
ghost use Rattle.text_rules.specs.Line.{words_of};
ghost use Rattle.parity_rules.specs.Answers.{buffers};
ghost use Rattle.parity_rules.specs.Places.{places_in};
ghost use Rattle.refusals.specs.Refusals.{number_given};
ghost use Rattle.station_rules.specs.declared.state.Station.{Station};
ghost use Rattle.station_rules.specs.Answers.{reply_as};
ghost use Rattle.station_rules.specs.Replies.{told, received, replied};
ghost use Rattle.console_rules.specs.Station.{Spoke, taken_text, replied_spoken, reply_spoken};

use crate::answers::put_refused;
use places::put_places;
use refusals::Refusal;
use station_rules::{Station, Taken};

// 0, the flips, the delay, the places and the corrected message.
fn put_values(out: &mut [u8], flips: u32, delay: i32, places: &[u8], corrected: &[u8]) -> usize
    requires { length places.now ≤ 124 }
    ensures { Put (done_text (taken_text flips delay (buffers corrected.now places.now)))
        0 out.old out.new result }
{
    let first = text::put_bytes(out, 0, b"0 ");
    let gap = text::put_decimal(out, first, flips);
    let second = text::put_byte(out, gap, 32);
    let behind = text::put_signed(out, second, delay);
    let space = put_places(out, behind, places);
    let third = text::put_byte(out, space, 32);
    let end = text::put_hex(out, third, corrected);
    text::put_byte(out, end, 10)
}

// What a taken reply is answered, or the refusal.
fn put_replied(r: Result<Taken, Refusal>, corrected: &[u8], places: &[u8], out: &mut [u8]) -> usize
    requires { (length corrected.now ≤ 32) × (length places.now ≤ 32) × (number_given r ≡ 0 → length (places_in places.now) ≤ 12) }
    ensures { (s : Station) → Spoke (replied_spoken (told (reply_as r s) (buffers corrected.now places.now))) out.old out.new s result }
{
    match r {
        Ok(t) => put_values(out, t.flips, t.delay, places, corrected),
        Err(refusal) => put_refused(refusal, out),
    }
}

// The reply, with buffers of zeros for the corrected message and the places that are as long as the message.
fn put_taken(
    s: &mut Station,
    entry: usize,
    tag: u32,
    msg: &[u8],
    marks: &[u8],
    corrected: &mut [u8],
    places: &mut [u8],
    out: &mut [u8],
) -> usize
    requires { (corrected.old ≡ replicate (length msg.now) 0) × (places.old ≡ replicate (length msg.now) 0) × (length msg.now ≤ 32) }
    ensures { Spoke (replied_spoken (replied s.old
        (received entry tag msg.now marks.now (replicate (length msg.now) 0) (replicate (length msg.now) 0))))
        out.old out.new s.new result }
{
    let r = station::take_reply(s, entry, tag, msg, marks, corrected, places);
    put_replied(r, corrected, places, out)
}

// An entry's number, a tag, a message and its marks.
pub(crate) fn put_reply(line: &[u8], s: &mut Station, out: &mut [u8]) -> usize
    ensures { Spoke (reply_spoken s.old (words_of line.now)) out.old out.new s.new result }
{
    let entry = console_plain::number_at(line, 1) as usize;
    let tag = console_plain::number_at(line, 2);
    let mut msg = [0u8; 32];
    let n = console_plain::bytes_at(line, 3, &mut msg);
    let mut marks = [0u8; 32];
    let m = console_plain::bytes_at(line, 4, &mut marks);
    let mut corrected = [0u8; 32];
    let mut flipped = [0u8; 32];
    put_taken(
        s,
        entry,
        tag,
        &msg[..n],
        &marks[..m],
        &mut corrected[..n],
        &mut flipped[..n],
        out,
    )
}
