// The parts of a message: its first four bytes, its bytes 5 to 11, its remainder.
ghost use Rattle.std.specs.Prelude.{◌≡◌, true, length, ◌<◌};
ghost use Rattle.parity_rules.specs.Messages.{seven_or_fourteen, bits};
ghost use Rattle.parity_rules.specs.Division.{remainder_of};
ghost use Rattle.frames_rules.specs.Fields.{head_of, mid_of};

use crate::bytes::number_in;

// Bits 1 to 32.
pub(crate) fn head_of(msg: &[u8]) -> u32
    requires { seven_or_fourteen (length msg.now) ≡ true }
    ensures { result ≡ head_of msg.now }
{
    number_in(&msg[0..4]) as u32
}

// Bits 33 to 88 of a long message; zero for a short one.
pub(crate) fn mid_of(msg: &[u8]) -> u64
    ensures { result ≡ mid_of msg.now }
{
    if msg.len() != 14 {
        return 0;
    }
    number_in(&msg[4..11])
}

// The remainder of a message of either length.
pub(crate) fn remainder_of(msg: &[u8]) -> u32
    requires { seven_or_fourteen (length msg.now) ≡ true }
    ensures { (result ≡ remainder_of (bits msg.now)) × (result < 16777216) }
{
    parity::remainder(msg).unwrap()
}
