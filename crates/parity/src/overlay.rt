// The overlays: of an address on the uplink, and of a code in DF 11.
ghost use Rattle.std.specs.Prelude.{◌≡◌};
ghost use Rattle.parity_rules.specs.Answers.{reckoned_said};
ghost use Rattle.parity_rules.specs.Overlays.{overlay_of, uplink_overlay, code_overlay};

use refusals::Refusal;

// The high half of the generator times the 24 low bits of a number.
fn overlay_of(address: u32) -> u32
    ensures { result ≡ overlay_of address }
{
    let mut p: u64 = 0;
    for i in (0..24u32).rev() {
        let b = ((address >> i) % 2) as u64;
        p = (p * 2) ^ (b * 0x1FF_F409);
    }
    (p >> 24) as u32
}

// The uplink overlay of an address; Range above 24 bits. FFFFFF is in: the all-call is laid over it.
pub fn uplink_overlay(address: u32) -> Result<u32, Refusal>
    ensures { reckoned_said result ≡ uplink_overlay address }
{
    if 0x100_0000 <= address {
        return Err(Refusal::Range);
    }
    Ok(overlay_of(address))
}

// The downlink overlay of DF 11, 16×CL + IC; Range for CL above 7 or IC above 15.
pub fn code_overlay(cl: u32, ic: u32) -> Result<u32, Refusal>
    ensures { reckoned_said result ≡ code_overlay cl ic }
{
    if 7 < cl || 15 < ic {
        return Err(Refusal::Range);
    }
    Ok(16 * cl + ic)
}
