// Replies built into a lent buffer, as a transponder sends them.
ghost use Rattle.std.specs.Prelude.{◌≡◌, ◌<◌};
ghost use Rattle.frames_rules.specs.Answers.{built_said};
ghost use Rattle.frames_rules.specs.Fields.{reply_head, all_call_reply_head};
ghost use Rattle.frames_rules.specs.Building.{reply_ranged, all_call_reply_ranged, replying, all_call_replying};

use crate::builders::is_address;
use crate::formats::{length_of, long_format, surveillance};
use crate::frame::{code_overlay, write};
use refusals::Refusal;

// Whether the numbers of a surveillance reply are in their ranges.
fn reply_ranged(df: u32, fs: u32, dr: u32, um: u32, value: u32, mb: u64, address: u32) -> bool
    ensures { result ≡ reply_ranged df fs dr um value mb address }
{
    if 7 < fs {
        return false;
    }
    if 31 < dr {
        return false;
    }
    if 63 < um {
        return false;
    }
    if 8191 < value {
        return false;
    }
    if !is_address(address) {
        return false;
    }
    if mb == 0 {
        return true;
    }
    if 0xFF_FFFF_FFFF_FFFF < mb {
        return false;
    }
    long_format(df)
}

// Bits 1 to 32 of a surveillance reply.
fn reply_head(df: u32, fs: u32, dr: u32, um: u32, value: u32) -> u32
    requires { (df < 32) × (fs < 8) × (dr < 32) × (um < 64) × (value < 8192) }
    ensures { result ≡ reply_head df fs dr um value }
{
    df * 0x800_0000 + fs * 0x100_0000 + dr * 0x8_0000 + um * 0x2000 + value
}

// Builds DF 4, 5, 20 or 21 of an address.
pub fn reply(
    df: u32,
    fs: u32,
    dr: u32,
    um: u32,
    value: u32,
    mb: u64,
    address: u32,
    out: &mut [u8],
) -> Result<(), Refusal>
    ensures { built_said result out.new ≡ replying df fs dr um value mb address out.old }
{
    if !surveillance(df) {
        return Err(Refusal::Range);
    }
    if out.len() != length_of(df) {
        return Err(Refusal::Length);
    }
    if !reply_ranged(df, fs, dr, um, value, mb, address) {
        return Err(Refusal::Range);
    }
    write(reply_head(df, fs, dr, um, value), mb, address, out);
    Ok(())
}

// Whether the numbers of an all-call reply are in their ranges.
fn all_call_reply_ranged(ca: u32, address: u32, cl: u32, ic: u32) -> bool
    ensures { result ≡ all_call_reply_ranged ca address cl ic }
{
    if 7 < ca {
        return false;
    }
    if !is_address(address) {
        return false;
    }
    if 7 < cl {
        return false;
    }
    ic <= 15
}

// Bits 1 to 32 of an all-call reply.
fn all_call_reply_head(ca: u32, address: u32) -> u32
    requires { (ca < 8) × (address < 16777216) }
    ensures { result ≡ all_call_reply_head ca address }
{
    0x5800_0000 + ca * 0x100_0000 + address
}

// Builds DF 11 of an address, for the code of an interrogator.
pub fn all_call_reply(
    ca: u32,
    address: u32,
    cl: u32,
    ic: u32,
    out: &mut [u8],
) -> Result<(), Refusal>
    ensures { built_said result out.new ≡ all_call_replying ca address cl ic out.old }
{
    if out.len() != 7 {
        return Err(Refusal::Length);
    }
    if !all_call_reply_ranged(ca, address, cl, ic) {
        return Err(Refusal::Range);
    }
    write(
        all_call_reply_head(ca, address),
        0,
        code_overlay(cl, ic),
        out,
    );
    Ok(())
}
