// The line `targets`.
ghost use Rattle.std.specs.Prelude.{take};
ghost use Rattle.text_rules.specs.Put.{decimal};
ghost use Rattle.stream_rules.specs.Lines.{followed};
ghost use Rattle.stream.specs.Calls.{Within};
ghost use Rattle.console_rules.specs.Station.{Spoke, target_line, targets_text, targets_spoken};

use numbers::live;
use station_rules::{Station, Target};

// A number, with a space behind it.
fn put_word(out: &mut [u8], at: usize, n: u32) -> usize
    ensures { Within 12 (followed (decimal n) 32) at out.old out.new result }
{
    let end = text::put_decimal(out, at, n);
    text::put_byte(out, end, 32)
}

// Address, near, far, and what was heard, as the stream prints it.
fn put_target(out: &mut [u8], at: usize, t: Target) -> usize
    ensures { Within 84 (target_line t) at out.old out.new result }
{
    let near = put_word(out, at, t.address);
    let far = put_word(out, near, t.near as u32);
    let heard = put_word(out, far, t.far as u32);
    stream::put_report(out, heard, t.ac, t.id)
}

// How many the first n targets are, and below that a line each.
fn put_list(out: &mut [u8], targets: &[Target; 64], n: usize) -> usize
    ensures { Within 5400 (targets_text (take n targets.now)) 0 out.old out.new result }
{
    let m = live(n, 64);
    let first = text::put_bytes(out, 0, b"0 ");
    let end = text::put_decimal(out, first, m as u32);
    let mut next = text::put_byte(out, end, 10);
    for &t in &targets[..m] {
        next = put_target(out, next, t);
    }
    next
}

// The target list as it stands.
pub(crate) fn put_targets(s: &Station, out: &mut [u8]) -> usize
    ensures { Spoke (targets_spoken s.now) out.old out.new s.now result }
{
    put_list(out, &s.targets.list, s.targets.n)
}
