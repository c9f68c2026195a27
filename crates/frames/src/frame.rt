// A frame laid into a buffer: its fields, then its parity with the overlay over it.
ghost use Rattle.std.specs.Prelude.{◌≡◌, true, ◌++◌, length, take, drop, ◌-◌, ◌<◌};
ghost use Rattle.parity_rules.specs.Messages.{seven_or_fourteen};
ghost use Rattle.parity_rules.specs.Overlays.{overlay_of};
ghost use Rattle.frames_rules.specs.Frames.{front, sealed, framed};
ghost use Rattle.frames_rules.specs.Shared.{code_number};

use crate::bytes::put;
use crate::message::remainder_of;

// Writes all but the parity.
fn fill(head: u32, mid: u64, out: &mut [u8])
    requires { seven_or_fourteen (length out.old) ≡ true }
    ensures { out.new ≡ front (length out.old) head mid ++ drop (length out.old - 3) out.old }
{
    put(head as u64, 4, 0, out);
    if out.len() != 14 {
        return;
    }
    put(mid, 7, 4, out);
}

// Writes the parity: what is written before it, then the remainder with the overlay over it.
fn seal(overlay: u32, out: &mut [u8])
    requires { seven_or_fourteen (length out.old) ≡ true }
    ensures { out.new ≡ sealed (take (length out.old - 3) out.old) overlay }
{
    let at = out.len() - 3;
    put(0, 3, at, out);
    let parity = remainder_of(out) ^ overlay;
    put(parity as u64, 3, at, out);
}

// Writes a frame of the buffer's length.
pub(crate) fn write(head: u32, mid: u64, overlay: u32, out: &mut [u8])
    requires { seven_or_fourteen (length out.old) ≡ true }
    ensures { out.new ≡ framed (length out.old) head mid overlay }
{
    fill(head, mid, out);
    seal(overlay, out);
}

// The uplink overlay of a number of 24 bits.
pub(crate) fn overlay_of(address: u32) -> u32
    requires { address < 16777216 }
    ensures { result ≡ overlay_of address }
{
    parity::uplink_overlay(address).unwrap()
}

// The overlay of a code in DF 11.
pub(crate) fn code_overlay(cl: u32, ic: u32) -> u32
    requires { (cl < 8) × (ic < 16) }
    ensures { result ≡ code_number cl ic }
{
    parity::code_overlay(cl, ic).unwrap()
}
