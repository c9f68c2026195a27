// The start of a reply on the plan's clock, the window in which it is taken, and the measured delay.
ghost use Rattle.std.specs.Prelude.{◌≡◌, ◌<◌, true, FitsSigned};
ghost use Rattle.std.proofs.Math.IntN.{sub_ℕ};
ghost use Rattle.std.specs.Int.{w32};
ghost use Rattle.station_rules.specs.Replies.{start_of, in_window, delay_of};

use numbers::wide;
use planner::Exchange;
use planner_rules::Entry;

// A reply's start: its tag minus the plan's tag, on a counter of 32 bits that wraps.
pub(crate) fn start_of(tag: u32, from: u32) -> u32
    ensures { result ≡ start_of tag from }
{
    std::num::wrapping_sub_u32(tag, from)
}

// Whether a reply that starts at this tick of the plan is taken for the entry.
pub(crate) fn in_window(e: Entry, s: u32) -> bool
    ensures { result ≡ in_window e s }
{
    let start = wide(e.start);
    start + Exchange::EARLIEST + wide(e.ask.near) <= s
        && s <= start + Exchange::LATEST + wide(e.ask.far)
}

// up − down, with its sign.
fn signed(up: u32, down: u32) -> i32
    requires { (up < 1000000) × (down < 1000000) }
    ensures { result ≡ sub_ℕ up down }
{
    up as i32 - down as i32
}

// The measured delay of a reply that is taken for the entry; it may be −1, and is far below 2^31.
pub(crate) fn delay(e: Entry, s: u32) -> i32
    requires { in_window e s ≡ true }
    ensures { (result ≡ delay_of e s) × FitsSigned w32 (delay_of e s) }
{
    signed(s, wide(e.start) + Exchange::DELAY)
}
