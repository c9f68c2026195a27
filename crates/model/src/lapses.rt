// Time lapses: timers and the reservation fall away, and leave no trace.
ghost use Rattle.std.specs.Prelude.{◌≡◌};
ghost use Rattle.model_rules.specs.Lapse.{is_over, timer_after, timers_after, holder_after, lapse};

use model_rules::{Holder, Timers, Transponder};

// Whether what began then is over by now.
fn is_over(now: u32, since: u32) -> bool
    ensures { result ≡ is_over now since }
{
    180 <= now.saturating_sub(since)
}

// A timer at a time.
fn timer_after(now: u32, t: Option<u32>) -> Option<u32>
    ensures { result ≡ timer_after now t }
{
    t.filter(|since| !is_over(now, *since))
}

// The timers at a time.
fn timers_after(now: u32, t: &mut Timers)
    ensures { t.new ≡ timers_after now t.old }
{
    for x in t.list.as_mut_slice() {
        *x = timer_after(now, *x);
    }
}

// The holder at a time.
fn holder_after(now: u32, h: Option<Holder>) -> Option<Holder>
    ensures { result ≡ holder_after now h }
{
    h.filter(|x| !is_over(now, x.since))
}

// A transponder at a time.
pub(crate) fn lapse(now: u32, t: &mut Transponder)
    ensures { t.new ≡ lapse now t.old }
{
    timers_after(now, &mut t.timers);
    t.holder = holder_after(now, t.holder);
    t.time = now;
}
