// The codes: which interrogator CL and IC stand for, and whose code a DF 11 carries.
ghost use Rattle.std.specs.Prelude.{◌≡◌, ◌<◌, Ok};
ghost use Rattle.lists.specs.Answers.{done};
ghost use Rattle.frames_rules.specs.Answers.{code_said, interrogator_said};
ghost use Rattle.frames_rules.specs.Codes.{station_ranged, whose, code_of};
ghost use Rattle.frames_rules.specs.Shared.{of_si, code_told};

use crate::frame::code_overlay;
use crate::message::{head_of, remainder_of};
use frames_rules::{Code, Interrogator};
use parity::seven_or_fourteen;
use refusals::Refusal;

// Whether CL is one of those of SI, 1 to 4.
fn of_si(cl: u32) -> bool
    ensures { result ≡ of_si cl }
{
    if cl == 0 {
        return false;
    }
    cl <= 4
}

// The code that CL and IC stand for; nobody's for SI 0, CL 5 to 7 and numbers out of range.
pub fn code_for(cl: u32, ic: u32) -> Option<Interrogator>
    ensures { interrogator_said result ≡ code_told cl ic }
{
    if 15 < ic {
        return None;
    }
    if cl == 0 {
        return Some(Interrogator::II(ic as u8));
    }
    if !of_si(cl) {
        return None;
    }
    let si = 16 * (cl - 1) + ic;
    if si == 0 {
        return None;
    }
    Some(Interrogator::SI(si as u8))
}

// Whether a station's CL, IC and permission are in their ranges.
fn station_ranged(cl: u32, ic: u32, permit: u32) -> bool
    ensures { result ≡ station_ranged cl ic permit }
{
    if 7 < cl {
        return false;
    }
    if 15 < ic {
        return false;
    }
    permit <= 1
}

// Whose code a DF 11 with this remainder carries, for a station.
fn whose_code(remainder: u32, cl: u32, ic: u32, permit: u32) -> Code
    requires { (cl < 8) × (ic < 16) }
    ensures { code_said (Ok result) ≡ done (whose remainder cl ic permit) }
{
    if remainder == code_overlay(cl, ic) {
        return Code::Own;
    }
    if permit != 1 {
        return Code::Other;
    }
    if !of_si(cl) {
        return Code::Other;
    }
    if remainder != ic {
        return Code::Other;
    }
    if remainder == 0 {
        return Code::Other;
    }
    Code::Matching
}

// Reads whose code a DF 11 carries, for a station with its CL, IC and permission to take the matching II.
pub fn code_of(msg: &[u8], cl: u32, ic: u32, permit: u32) -> Result<Code, Refusal>
    ensures { code_said result ≡ code_of msg.now cl ic permit }
{
    if !seven_or_fourteen(msg.len()) {
        return Err(Refusal::Length);
    }
    if !station_ranged(cl, ic, permit) {
        return Err(Refusal::Range);
    }
    if msg.len() != 7 || (head_of(msg) >> 27) % 32 != 11 {
        return Err(Refusal::Format);
    }
    Ok(whose_code(remainder_of(msg), cl, ic, permit))
}
