// What a reply does: the corrected message goes to a buffer of its own and is not printed; the places of its flipped bits are.
ghost use Rattle.std.specs.Prelude.{◌≡◌, ◌≤◌, [], length};
ghost use Rattle.parity_rules.specs.Answers.{buffers};
ghost use Rattle.parity_rules.specs.Places.{places_in};
ghost use Rattle.station_rules.specs.Replies.{received, told, replied};
ghost use Rattle.refusals.specs.Refusals.{number_given};
ghost use Rattle.station_rules.specs.declared.state.Station.{Station};
ghost use Rattle.station_rules.specs.Answers.{reply_as};
ghost use Rattle.stream_rules.specs.Step.{replied_to, reply_to, zeros};
ghost use Rattle.stream.specs.Calls.{Did};

use crate::answers::{put_answer, put_reply_answer};
use refusals::Refusal;
use station_rules::{Station, Taken};

// A taken reply adds flips, delay and places on its line.
fn put_replied(
    n: u32,
    kind: u8,
    r: Result<Taken, Refusal>,
    places: &[u8],
    out: &mut [u8],
    at: usize,
) -> usize
    requires { (length places.now ≤ 14) × (number_given r ≡ 0 → length (places_in places.now) ≤ 12) }
    ensures { (st : Station) → Did (replied_to n kind (told (reply_as r st) (buffers [] places.now))) at out.old out.new st result }
{
    match r {
        Ok(t) => put_reply_answer(out, at, n, kind, t.flips, t.delay, places),
        Err(refusal) => put_answer(out, at, n, kind, u8::from(refusal)),
    }
}

// A reply into lent buffers, and its line.
fn put_taken(
    n: u32,
    kind: u8,
    st: &mut Station,
    entry: usize,
    tag: u32,
    msg: &[u8],
    marks: &[u8],
    corrected: &mut [u8],
    flipped: &mut [u8],
    out: &mut [u8],
    at: usize,
) -> usize
    requires { length flipped.old ≤ 14 }
    ensures { Did (replied_to n kind (replied st.old
        (received entry tag msg.now marks.now corrected.old flipped.old)))
        at out.old out.new st.new result }
{
    let r = station::take_reply(st, entry, tag, msg, marks, corrected, flipped);
    put_replied(n, kind, r, flipped, out, at)
}

// A reply of either length: the buffers that it is lent for the corrected message and the places are as long as the message.
pub(crate) fn obey_reply(
    s: &[u8],
    kind: u8,
    b: usize,
    n: u32,
    st: &mut Station,
    out: &mut [u8],
    at: usize,
) -> usize
    ensures { Did (replied_to n kind (reply_to s.now kind b st.old (zeros kind))) at out.old out.new st.new result }
{
    let q = reader::reply_at(s, kind, b);
    let size = reader::message_length(kind);
    let mut corrected = [0u8; 14];
    let mut flipped = [0u8; 14];
    put_taken(
        n,
        kind,
        st,
        q.entry as usize,
        q.tag,
        &s[q.message..q.marks],
        &s[q.marks..q.end],
        &mut corrected[..size],
        &mut flipped[..size],
        out,
        at,
    )
}
