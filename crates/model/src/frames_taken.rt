// A frame is taken at a time, with a draw.
ghost use Rattle.std.specs.Prelude.{◌≡◌};
ghost use Rattle.frames_rules.specs.Interrogations.{up_of};
ghost use Rattle.model_rules.specs.Calls.{comes, taking};
ghost use Rattle.model_rules.specs.Said.{went_as, took_as};

use crate::lapses::lapse;
use crate::selective::{all_call_comes, selective_comes};
use frames::Up;
use model_rules::{Sent, Transponder};
use refusals::Refusal;

// A frame comes once time has lapsed.
fn comes(draw: u32, t: &mut Transponder, frame: &[u8]) -> Option<Sent>
    ensures { went_as result t.new ≡ comes draw t.old (up_of frame.now) }
{
    match frames::read_up(frame) {
        Ok(
            Up::Selective {
                uf,
                pc,
                rr,
                di,
                sd,
                ma: _,
                remainder,
            },
        ) => selective_comes(uf, pc, rr, di, sd, remainder, t),
        Ok(
            Up::AllCall {
                pr,
                ic,
                cl,
                remainder,
            },
        ) => all_call_comes(pr, ic, cl, remainder, draw, t),
        Err(_) => None,
    }
}

// Takes a frame: the reply to it, or none.
pub fn take(
    t: &mut Transponder,
    time: u32,
    draw: u32,
    frame: &[u8],
) -> Result<Option<Sent>, Refusal>
    ensures { took_as result t.new ≡ taking t.old time draw frame.now }
{
    if !parity::seven_or_fourteen(frame.len()) {
        return Err(Refusal::Length);
    }
    if 15 < draw {
        return Err(Refusal::Range);
    }
    if time < t.time {
        return Err(Refusal::Earlier);
    }
    lapse(time, t);
    Ok(comes(draw, t, frame))
}
