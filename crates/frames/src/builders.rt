// Interrogations built into a lent buffer.
ghost use Rattle.std.specs.Prelude.{◌≡◌, ◌<◌};
ghost use Rattle.frames_rules.specs.Answers.{built_said};
ghost use Rattle.frames_rules.specs.Fields.{selective_head, all_call_head};
ghost use Rattle.frames_rules.specs.Building.{is_address, selective_ranged, all_call_ranged, building, all_calling};

use crate::bytes::number_in;
use crate::formats::{length_of, long_format, surveillance};
use crate::frame::{overlay_of, write};
use refusals::Refusal;

// Whether a number is an address: 1 to 16,777,214.
pub fn is_address(a: u32) -> bool
    ensures { result ≡ is_address a }
{
    if a == 0 {
        return false;
    }
    a <= 16_777_214
}

// Whether the numbers of a selective interrogation are in their ranges, its UF among them.
pub fn selective_ranged(uf: u32, pc: u32, rr: u32, di: u32, sd: u32, ma: u64, address: u32) -> bool
    ensures { result ≡ selective_ranged uf pc rr di sd ma address }
{
    if !surveillance(uf) {
        return false;
    }
    if 7 < pc {
        return false;
    }
    if 31 < rr {
        return false;
    }
    if 7 < di {
        return false;
    }
    if 65535 < sd {
        return false;
    }
    if !is_address(address) {
        return false;
    }
    if ma == 0 {
        return true;
    }
    if 0xFF_FFFF_FFFF_FFFF < ma {
        return false;
    }
    long_format(uf)
}

// Bits 1 to 32 of a selective interrogation.
fn selective_head(uf: u32, pc: u32, rr: u32, di: u32, sd: u32) -> u32
    requires { (uf < 32) × (pc < 8) × (rr < 32) × (di < 8) × (sd < 65536) }
    ensures { result ≡ selective_head uf pc rr di sd }
{
    uf * 0x800_0000 + pc * 0x100_0000 + rr * 0x8_0000 + di * 0x1_0000 + sd
}

// Builds UF 4, 5, 20 or 21 for an address.
pub fn build(
    uf: u32,
    pc: u32,
    rr: u32,
    di: u32,
    sd: u32,
    ma: &[u8],
    address: u32,
    out: &mut [u8],
) -> Result<(), Refusal>
    ensures { built_said result out.new ≡ building uf pc rr di sd ma.now address out.old }
{
    if !surveillance(uf) {
        return Err(Refusal::Range);
    }
    if out.len() != length_of(uf) || ma.len() != 7 {
        return Err(Refusal::Length);
    }
    let mid = number_in(ma);
    if !selective_ranged(uf, pc, rr, di, sd, mid, address) {
        return Err(Refusal::Range);
    }
    let head = selective_head(uf, pc, rr, di, sd);
    write(head, mid, overlay_of(address), out);
    Ok(())
}

// Whether the numbers of an all-call are in their ranges.
fn all_call_ranged(pr: u32, ic: u32, cl: u32) -> bool
    ensures { result ≡ all_call_ranged pr ic cl }
{
    if 15 < pr {
        return false;
    }
    if 15 < ic {
        return false;
    }
    cl <= 7
}

// Bits 1 to 32 of an all-call.
fn all_call_head(pr: u32, ic: u32, cl: u32) -> u32
    requires { (pr < 16) × (ic < 16) × (cl < 8) }
    ensures { result ≡ all_call_head pr ic cl }
{
    0x5800_0000 + pr * 0x80_0000 + ic * 0x8_0000 + cl * 0x1_0000
}

// Builds UF 11.
pub fn all_call(pr: u32, ic: u32, cl: u32, out: &mut [u8]) -> Result<(), Refusal>
    ensures { built_said result out.new ≡ all_calling pr ic cl out.old }
{
    if out.len() != 7 {
        return Err(Refusal::Length);
    }
    if !all_call_ranged(pr, ic, cl) {
        return Err(Refusal::Range);
    }
    write(all_call_head(pr, ic, cl), 0, overlay_of(0xFF_FFFF), out);
    Ok(())
}
