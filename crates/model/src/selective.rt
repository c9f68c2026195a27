// Who a frame is for, and the steps of a selective interrogation.
ghost use Rattle.std.specs.Prelude.{◌≡◌};
ghost use Rattle.model_rules.specs.Calls.{laid_over, interrogated, selective_comes, all_call_comes};
ghost use Rattle.model_rules.specs.Said.{went_as};

use crate::all_calls::answer_all_call;
use crate::closeouts::closeout;
use crate::lockouts::lockout;
use crate::reservations::reserve;
use crate::responses::respond;
use model_rules::{Sent, Transponder};

// Whether a remainder is the uplink overlay of a number of 24 bits.
fn laid_over(address: u32, remainder: u32) -> bool
    ensures { result ≡ laid_over address remainder }
{
    match parity::uplink_overlay(address) {
        Ok(v) => remainder == v,
        Err(_) => false,
    }
}

// Lockout, reservation and closeout, reply.
fn interrogated(uf: u8, pc: u8, rr: u8, di: u8, sd: u16, t: &mut Transponder) -> Option<Sent>
    ensures { went_as result t.new ≡ interrogated uf pc rr di sd t.old }
{
    lockout(pc, di, sd, t);
    reserve(di, sd, t);
    closeout(pc, di, sd, t);
    respond(uf, rr, di, sd, t)
}

// UF 4, 5, 20 or 21.
pub(crate) fn selective_comes(
    uf: u8,
    pc: u8,
    rr: u8,
    di: u8,
    sd: u16,
    remainder: u32,
    t: &mut Transponder,
) -> Option<Sent>
    ensures { went_as result t.new ≡ selective_comes uf pc rr di sd remainder t.old }
{
    if !laid_over(t.address, remainder) {
        return None;
    }
    interrogated(uf, pc, rr, di, sd, t)
}

// UF 11.
pub(crate) fn all_call_comes(
    pr: u8,
    ic: u8,
    cl: u8,
    remainder: u32,
    draw: u32,
    t: &Transponder,
) -> Option<Sent>
    ensures { went_as result t.now ≡ all_call_comes pr ic cl remainder draw t.now }
{
    if !laid_over(0xFF_FFFF, remainder) {
        return None;
    }
    answer_all_call(pr, ic, cl, draw, t)
}
