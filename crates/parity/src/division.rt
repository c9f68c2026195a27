// The remainder of a message, a byte at a time.
ghost use Rattle.std.specs.Prelude.{◌≡◌, [], ◌<◌};
ghost use Rattle.parity_rules.specs.Messages.{bits, byte_then};
ghost use Rattle.parity_rules.specs.Answers.{reckoned_said};
ghost use Rattle.parity_rules.specs.Division.{divide, remainder_of, remainder_answer};
ghost use Rattle.parity_rules.specs.Steps.{moved_up};

use crate::lengths::seven_or_fourteen;
use refusals::Refusal;

// The byte h times x^24, reduced, with no table: x^24 leaves FFF409, and x^25 and the six powers after it 1C1B moved up.
fn moved_up(h: u32) -> u32
    requires { h < 256 }
    ensures { result ≡ moved_up h }
{
    let k = h / 2;
    let u = k ^ (k * 2);
    (h % 2 * 0xFF_F409) ^ ((u ^ (k * 4)) * 1024) ^ (u * 8) ^ u
}

// Eight more coefficients of a polynomial, reduced by the generator.
pub(crate) fn byte_in(r: u32, b: u8) -> u32
    requires { r < 16777216 }
    ensures { (result ≡ divide r (byte_then b [])) × (result < 16777216) }
{
    moved_up(r / 65536) ^ (r % 65536 * 256 + b as u32)
}

// The remainder of any bytes as a polynomial.
pub(crate) fn remainder_of(msg: &[u8]) -> u32
    ensures { result ≡ remainder_of (bits msg.now) }
{
    let mut r: u32 = 0;
    for &b in msg {
        r = byte_in(r, b);
    }
    r
}

// The remainder of a message; Length unless it has 7 or 14 bytes.
pub fn remainder(msg: &[u8]) -> Result<u32, Refusal>
    ensures { reckoned_said result ≡ remainder_answer msg.now }
{
    if !seven_or_fourteen(msg.len()) {
        return Err(Refusal::Length);
    }
    Ok(remainder_of(msg))
}
