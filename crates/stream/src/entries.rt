// The lines of a plan's entries.
ghost use Rattle.std.specs.Prelude.{[], ◌∷◌, ◌++◌, take};
ghost use Rattle.text_rules.specs.Put.{decimal};
ghost use Rattle.planner_rules.specs.Exchange.{listens};
ghost use Rattle.stream_rules.specs.Lines.{followed, spaced, entry_words, entry_line, entry_lines};
ghost use Rattle.stream.specs.Calls.{Within};

use crate::words::{NEWLINE, SPACE, put_nothing, put_number};
use numbers::live;
use planner::Exchange;
use planner_rules::Entry;

// Six numbers, with a space behind each but the last.
fn put_numbers(
    out: &mut [u8],
    at: usize,
    a: u32,
    b: u32,
    c: u32,
    d: u32,
    e: u32,
    f: u32,
    behind: u8,
) -> usize
    ensures { Within 72 (spaced (decimal a ∷ decimal b ∷ decimal c ∷ decimal d ∷ decimal e ∷ []) ++ followed (decimal f) behind)
        at out.old out.new result }
{
    let at_b = put_number(out, at, a, SPACE);
    let at_c = put_number(out, at_b, b, SPACE);
    let at_d = put_number(out, at_c, c, SPACE);
    let at_e = put_number(out, at_d, d, SPACE);
    let at_f = put_number(out, at_e, e, SPACE);
    put_number(out, at_f, f, behind)
}

// Entry, unit, address, start, window start, window end, and the byte behind them.
fn put_words(out: &mut [u8], at: usize, k: u32, e: Entry, behind: u8) -> usize
    ensures { Within 72 (spaced (take 5 (entry_words k e)) ++ followed (decimal (listens e).hi) behind) at out.old out.new result }
{
    let a = e.ask;
    let x = Exchange::of(a);
    let start = e.start as u32;
    put_numbers(
        out,
        at,
        k,
        a.request.unit as u32,
        a.request.address,
        start,
        start + x.from,
        start + x.to,
        behind,
    )
}

// Entry, unit, address, start, window start, window end.
pub fn put_entry(out: &mut [u8], at: usize, k: u32, e: Entry) -> usize
    ensures { Within 72 (entry_line k e) at out.old out.new result }
{
    put_words(out, at, k, e, NEWLINE)
}

// The same six numbers with a space behind each, for a line that goes on.
pub fn put_entry_head(out: &mut [u8], at: usize, k: u32, e: Entry) -> usize
    ensures { Within 72 (spaced (entry_words k e)) at out.old out.new result }
{
    put_words(out, at, k, e, SPACE)
}

// The first n entries, a line each.
pub fn put_entries(out: &mut [u8], at: usize, entries: &[Entry; 128], n: usize) -> usize
    ensures { Within 9216 (entry_lines 0 (take n entries.now)) at out.old out.new result }
{
    let mut next = put_nothing(out, at);
    for (k, &e) in entries[..live(n, 128)].iter().enumerate() {
        next = put_entry(out, next, k as u32, e);
    }
    next
}
