// The reply to a selective interrogation.
ghost use Rattle.std.specs.Prelude.{◌≡◌};
ghost use Rattle.model_rules.specs.Replies.{dr_of, hides_um, um_of, bds2, mb_of, value_of, respond};
ghost use Rattle.model_rules.specs.Said.{sent_as};

use crate::messages::{first_of, waits};
use crate::sending::send;
use model_rules::{Holder, Messages, Sent, Transponder};

// DR.
fn dr_of(m: &Messages) -> u32
    ensures { result ≡ dr_of m.now }
{
    if waits(m) { 1 } else { 0 }
}

// Whether RSS asks for no UM.
fn hides_um(di: u8, sd: u16) -> bool
    ensures { result ≡ hides_um di sd }
{
    if di != 1 {
        return false;
    }
    2 <= (sd / 16) % 4
}

// UM.
fn um_of(di: u8, sd: u16, h: Option<Holder>) -> u32
    ensures { result ≡ um_of di sd h }
{
    match h {
        Some(x) if !hides_um(di, sd) => 4 * (x.ii as u32) + 1,
        _ => 0,
    }
}

// BDS2.
fn bds2(di: u8, sd: u16) -> u16
    ensures { result ≡ bds2 di sd }
{
    if di == 7 {
        return (sd / 256) % 16;
    }
    if di == 3 {
        return (sd / 32) % 16;
    }
    0
}

// MB.
fn mb_of(rr: u8, di: u8, sd: u16, m: &Messages) -> u64
    ensures { result ≡ mb_of rr di sd m.now }
{
    if rr != 16 {
        return 0;
    }
    if bds2(di, sd) != 0 {
        return 0;
    }
    first_of(m)
}

// AC or ID.
fn value_of(uf: u8, t: &Transponder) -> u16
    ensures { result ≡ value_of uf t.now }
{
    if uf == 4 {
        return t.ac;
    }
    if uf == 20 {
        return t.ac;
    }
    t.id
}

// The reply that a selective interrogation draws.
pub(crate) fn respond(uf: u8, rr: u8, di: u8, sd: u16, t: &Transponder) -> Option<Sent>
    ensures { sent_as result ≡ respond uf rr di sd t.now }
{
    let df = frames::drawn(uf as u32, rr as u32)?;
    let dr = dr_of(&t.messages);
    let um = um_of(di, sd, t.holder);
    let mb = mb_of(rr, di, sd, &t.messages);
    let value = value_of(uf, t);
    send(df as u32, t.fs as u32, dr, um, value as u32, mb, t.address)
}
