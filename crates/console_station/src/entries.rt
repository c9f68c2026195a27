// The line `entries`.
ghost use Rattle.stream_rules.specs.Lines.{followed};
ghost use Rattle.stream.specs.Calls.{Within};
ghost use Rattle.console_rules.specs.Station.{Spoke, status_word, status_line, entries_text, entries_spoken};

use numbers::live;
use planner_rules::{Entry, Status};
use station_rules::Station;

// What has become of an entry, and the line's end.
fn put_status(out: &mut [u8], at: usize, s: Status) -> usize
    ensures { Within 10 (followed (status_word s) 10) at out.old out.new result }
{
    match s {
        Status::Open => text::put_bytes(out, at, b"open\n"),
        Status::Answered => text::put_bytes(out, at, b"answered\n"),
        Status::Withdrawn => text::put_bytes(out, at, b"withdrawn\n"),
    }
}

// The six numbers of an entry, as the stream prints them, and what has become of it.
fn put_line(out: &mut [u8], at: usize, k: u32, e: Entry) -> usize
    ensures { Within 82 (status_line k e) at out.old out.new result }
{
    let end = stream::put_entry_head(out, at, k, e);
    put_status(out, end, e.status)
}

// How many the first n entries are and the plan's tag, and below that a line each.
fn put_list(out: &mut [u8], entries: &[Entry; 128], n: usize, tag: u32) -> usize
    ensures { Within 10560 (entries_text (record { list = entries.now; n = n; tag = tag })) 0 out.old out.new result }
{
    let m = live(n, 128);
    let first = text::put_bytes(out, 0, b"0 ");
    let gap = text::put_decimal(out, first, m as u32);
    let behind = text::put_byte(out, gap, 32);
    let end = text::put_decimal(out, behind, tag);
    let mut next = text::put_byte(out, end, 10);
    for (k, &e) in entries[..m].iter().enumerate() {
        next = put_line(out, next, k as u32, e);
    }
    next
}

// The plan in force as it stands.
pub(crate) fn put_entries(s: &Station, out: &mut [u8]) -> usize
    ensures { Spoke (entries_spoken s.now) out.old out.new s.now result }
{
    put_list(out, &s.plan.list, s.plan.n, s.plan.tag)
}
