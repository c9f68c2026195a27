// The calls of parity for programs in other languages. An answer is one number: that of document 01 times 2^32 plus the value or the flips.
ghost use Rattle.std.specs.Prelude.{◌≡◌};
ghost use Rattle.parity_rules.specs.Answers.{buffers, reckoned_said};
ghost use Rattle.parity_rules.specs.Division.{remainder_answer};
ghost use Rattle.parity_rules.specs.Overlays.{uplink_overlay, code_overlay};
ghost use Rattle.parity_rules.specs.Correction.{correction};
ghost use Rattle.exports.specs.Packed.{packed, opened, Packs};

use refusals::Refusal;

// What a call answers as one number.
fn pack(r: Result<u32, Refusal>) -> u64
    ensures said { result ≡ packed (reckoned_said r) }
    ensures parts { Packs result r }
{
    match r {
        Ok(v) => v as u64,
        Err(refusal) => u8::from(refusal) as u64 * 0x1_0000_0000,
    }
}

// The remainder of a message.
#[unsafe(no_mangle)]
pub extern "C" fn jerungkal_remainder(msg: &[u8]) -> u64
    ensures { result ≡ packed (remainder_answer msg.now) }
{
    pack(parity::remainder(msg))
}

// The uplink overlay of an address.
#[unsafe(no_mangle)]
pub extern "C" fn jerungkal_uplink_overlay(address: u32) -> u64
    ensures { result ≡ packed (uplink_overlay address) }
{
    pack(parity::uplink_overlay(address))
}

// The downlink overlay of DF 11.
#[unsafe(no_mangle)]
pub extern "C" fn jerungkal_code_overlay(cl: u32, ic: u32) -> u64
    ensures { result ≡ packed (code_overlay cl ic) }
{
    pack(parity::code_overlay(cl, ic))
}

// A correction, and the places that it flipped.
#[unsafe(no_mangle)]
pub extern "C" fn jerungkal_correct(
    msg: &[u8],
    marks: &[u8],
    overlay: u32,
    limit: u32,
    out: &mut [u8],
    places: &mut [u8],
) -> u64
    ensures { opened result (buffers out.new places.new)
        ≡ correction msg.now marks.now overlay limit (buffers out.old places.old) }
{
    pack(parity::correct(msg, marks, overlay, limit, out, places))
}
