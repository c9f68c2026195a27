// The timers by their codes: the place of a code, a timer that starts, and whether it locks.
ghost use Rattle.std.specs.Prelude.{◌≡◌};
ghost use Rattle.model_rules.specs.State.{place_of, started_by};
ghost use Rattle.model_rules.specs.Lockout.{locked_to};

use frames::Interrogator;
use model_rules::Timers;

// The place of a code's timer.
fn place_of(code: Interrogator) -> usize
    ensures { result ≡ place_of code }
{
    match code {
        Interrogator::II(n) => n as usize,
        Interrogator::SI(n) => 15 + n as usize,
    }
}

// The timer of a code starts.
pub(crate) fn start(t: &mut Timers, code: Option<Interrogator>, time: u32)
    ensures { t.new ≡ started_by code time t.old }
{
    if let Some(c) = code {
        let place = place_of(c);
        let list = t.list.as_mut_slice();
        if place < list.len() {
            list[place] = Some(time);
        }
    }
}

// Whether a code is locked.
pub(crate) fn locked_to(t: &Timers, code: Interrogator) -> bool
    ensures { result ≡ locked_to code t.now }
{
    let place = place_of(code);
    let list = t.list.as_slice();
    place < list.len() && list[place].is_some()
}
