// A reply to an entry of the plan in force: its checks in order, then by the correction.
ghost use Rattle.std.specs.Prelude.{◌≡◌, ◌<◌, true, length};
ghost use Rattle.lists.specs.Checks.{given};
ghost use Rattle.parity_rules.specs.Answers.{buffers};
ghost use Rattle.parity_rules.specs.Correction.{sized};
ghost use Rattle.station_rules.specs.State.{entries_of};
ghost use Rattle.station_rules.specs.Replies.{expected, holds_id, start_of, in_window, said_in, targets_heard, entry_numbered};
ghost use Rattle.station_rules.specs.Replies.{received, open_checks, told, settled, replied};
ghost use Rattle.station_rules.specs.Answers.{reply_as};
ghost use Rattle.refusals.specs.Refusals.{number_given};

use crate::correcting::{correct_as, value_in};
use crate::entries::{answer, entry_count, entry_of, is_open};
use crate::ranges::byte;
use crate::targets;
use crate::windows::{delay, in_window, start_of};
use planner_rules::{Entry, Request};
use refusals::Refusal;
use station_rules::{Heard, Station, Taken, Target, Targets};

// The format of the reply that a request expects.
fn expected(q: Request) -> u8
    ensures { result ≡ expected q }
{
    frames::drawn(byte(q.uf), byte(q.rr)).unwrap_or(0)
}

// Whether a format holds ID; it is AC else.
fn holds_id(f: u8) -> bool
    ensures { result ≡ holds_id f }
{
    f == 5 || f == 21
}

// A target says a value just now, in a reply of this format.
fn say(x: &mut Target, f: u8, v: u16)
    ensures { x.new ≡ said_in f v x.old }
{
    let heard = Some(Heard { value: v, age: 0 });
    if holds_id(f) {
        x.id = heard;
    } else {
        x.ac = heard;
    }
}

// The target of the request says a value, if it is held.
fn hear(t: &mut Targets, q: Request, v: u16)
    ensures { t.new ≡ targets_heard q v t.old }
{
    if targets::in_list(t, q.address) {
        let mut x = targets::target_at(t, q.address);
        say(&mut x, expected(q), v);
        targets::put(t, q.address, x);
    }
}

// A reply that has passed the checks before the correction, by the correction.
fn settle(
    s: &mut Station,
    entry: usize,
    tag: u32,
    msg: &[u8],
    marks: &[u8],
    out: &mut [u8],
    places: &mut [u8],
) -> Result<Taken, Refusal>
    requires places_value { sized (length msg.now) (length marks.now) (length out.old) (length places.old) ≡ true }
    requires in_bounds { entry < length (entries_of s.old.plan) }
    requires tag_value { in_window (entry_numbered entry s.old) (start_of tag s.old.plan.tag) ≡ true }
    ensures { told (reply_as result s.new) (buffers out.new places.new)
        ≡ settled s.old (received entry tag msg.now marks.now out.old places.old) }
{
    let e = entry_of(&s.plan, entry);
    let q = e.ask.request;
    let delay = delay(e, start_of(tag, s.plan.tag));
    let flips = correct_as(
        msg,
        marks,
        q.address,
        byte(s.setup.limit),
        expected(q),
        out,
        places,
    )?;
    hear(&mut s.targets, q, value_in(out));
    answer(&mut s.plan, entry);
    Ok(Taken { flips, delay })
}

// A reply by its entry: refused for one answered or withdrawn, for another length than expected, and outside its window.
fn judge_entry(e: Entry, start: u32, n: usize) -> Result<(), Refusal>
    ensures { number_given result ≡ given (open_checks e start n) }
{
    if !is_open(e.status) {
        return Err(Refusal::Closed);
    }
    if n != frames::length_of(byte(expected(e.ask.request))) {
        return Err(Refusal::OtherLength);
    }
    if !in_window(e, start) {
        return Err(Refusal::Outside);
    }
    Ok(())
}

// A reply: refused for the lengths, for no such entry; then by its entry, and by the correction.
pub fn take_reply(
    s: &mut Station,
    entry: usize,
    tag: u32,
    msg: &[u8],
    marks: &[u8],
    out: &mut [u8],
    places: &mut [u8],
) -> Result<Taken, Refusal>
    ensures { told (reply_as result s.new) (buffers out.new places.new)
        ≡ replied s.old (received entry tag msg.now marks.now out.old places.old) }
{
    if !parity::sized(msg.len(), marks.len(), out.len(), places.len()) {
        return Err(Refusal::Length);
    }
    if entry_count(&s.plan) <= entry {
        return Err(Refusal::NoEntry);
    }
    judge_entry(
        entry_of(&s.plan, entry),
        start_of(tag, s.plan.tag),
        msg.len(),
    )?;
    settle(s, entry, tag, msg, marks, out, places)
}
