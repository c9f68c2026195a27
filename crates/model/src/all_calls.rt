// The reply to an all-call.
ghost use Rattle.std.specs.Prelude.{◌≡◌};
ghost use Rattle.model_rules.specs.Replies.{draws_below, free, answers_free, answers_code, answer_all_call};
ghost use Rattle.model_rules.specs.Said.{sent_as};

use crate::sending::send_all_call;
use crate::timers::locked_to;
use frames::Interrogator;
use model_rules::{Sent, Transponder};

// The draws that a PR lets answer: those below 16/2^p.
fn draws_below(pr: u8) -> u32
    ensures { result ≡ draws_below pr }
{
    let p = pr as u32;
    if p <= 4 {
        return 16 >> p;
    }
    if p < 8 {
        return 0;
    }
    if 12 < p {
        return 0;
    }
    16 >> (p - 8)
}

// Whether lockout lets a code's all-call through.
fn free(pr: u8, code: Interrogator, t: &Transponder) -> bool
    ensures { result ≡ free pr code t.now }
{
    8 <= pr || !locked_to(&t.timers, code)
}

// Whether an all-call of somebody's code is answered.
fn answers_free(pr: u8, draw: u32, code: Interrogator, t: &Transponder) -> bool
    ensures { result ≡ answers_free pr draw code t.now }
{
    free(pr, code, t) && draw < draws_below(pr)
}

// Whether an all-call of a code is answered.
fn answers_code(pr: u8, draw: u32, t: &Transponder, code: Option<Interrogator>) -> bool
    ensures { result ≡ answers_code pr draw t.now code }
{
    match code {
        None => false,
        Some(c) => answers_free(pr, draw, c, t),
    }
}

// The reply to an all-call.
pub(crate) fn answer_all_call(pr: u8, ic: u8, cl: u8, draw: u32, t: &Transponder) -> Option<Sent>
    ensures { sent_as result ≡ answer_all_call pr ic cl draw t.now }
{
    let code = frames::code_for(cl as u32, ic as u32);
    if !answers_code(pr, draw, t, code) {
        return None;
    }
    send_all_call(t.ca as u32, t.address, cl as u32, ic as u32)
}
