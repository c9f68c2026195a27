// The line `state`.
ghost use Rattle.std.specs.Prelude.{◌≤◌, length};
ghost use Rattle.text_rules.specs.Put.{Put};
ghost use Rattle.console_rules.specs.Texts.{Brief};
ghost use Rattle.console_rules.specs.Aircraft.{Showed, holder_text, lock_text, locks_text, held_text, shown_text, state_text, state_said};

use crate::state::of_zeros;
use model_rules::{Holder, Timers, Transponder};

// The holder's II, or "-" for nobody.
fn put_holder(out: &mut [u8], at: usize, h: Option<Holder>) -> usize
    ensures { Put (holder_text h) at out.old out.new result × (length (holder_text h) ≤ 3) }
{
    match h {
        None => text::put_byte(out, at, 45),
        Some(x) => text::put_decimal(out, at, x.ii as u32),
    }
}

// The code of the k-th timer, if it locks.
fn put_lock(out: &mut [u8], at: usize, k: u32, timer: Option<u32>) -> usize
    requires { at ≤ length out.old }
    ensures { Put (lock_text k timer) at out.old out.new result }
{
    if timer.is_none() {
        return at;
    }
    if k < 16 {
        let ii = text::put_bytes(out, at, b" II");
        return text::put_decimal(out, ii, k);
    }
    let si = text::put_bytes(out, at, b" SI");
    text::put_decimal(out, si, k - 15)
}

// The codes that are locked, in the order of their timers.
fn put_locks(out: &mut [u8], at: usize, timers: Timers) -> usize
    ensures { Put (locks_text 0 timers.list) at out.old out.new result }
{
    if out.len() <= at {
        return out.len();
    }
    let mut next = at;
    for i in 0..79 {
        next = put_lock(out, next, i as u32, timers.list[i]);
    }
    next
}

// The holder, how many messages wait, and the codes that are locked.
fn put_held(out: &mut [u8], at: usize, holder: Option<Holder>, queued: u32, timers: Timers) -> usize
    ensures { Put (held_text holder queued timers.list) at out.old out.new result × (length (holder_text holder) ≤ 3) }
{
    let at_holder = text::put_byte(out, at, 32);
    let after_holder = put_holder(out, at_holder, holder);
    let at_queued = text::put_byte(out, after_holder, 32);
    let at_locks = text::put_decimal(out, at_queued, queued);
    put_locks(out, at_locks, timers)
}

// 0, the time, and what the aircraft holds.
fn put_shown(
    out: &mut [u8],
    time: u32,
    holder: Option<Holder>,
    queued: u32,
    timers: Timers,
) -> usize
    ensures { Brief (shown_text time holder queued timers.list) out.old out.new result }
{
    let at_time = text::put_bytes(out, 0, b"0 ");
    let after_time = text::put_decimal(out, at_time, time);
    let end = put_held(out, after_time, holder, queued, timers);
    text::put_byte(out, end, 10)
}

// The transponder's parts.
fn put_transponder(t: Transponder, out: &mut [u8]) -> usize
    ensures { Brief (state_text t) out.old out.new result }
{
    let queued = model::count(&t.messages) as u32;
    put_shown(out, t.time, t.holder, queued, t.timers)
}

// Shows the aircraft.
pub(crate) fn put_state(a: &Option<Transponder>, out: &mut [u8]) -> usize
    ensures { Showed (state_said a.now) out.old out.new a.now result }
{
    put_transponder(a.unwrap_or_else(of_zeros), out)
}
