// The syndromes, behind one function: nothing else knows how they are had.
ghost use Rattle.std.specs.Prelude.{◌≡◌, ◌<◌};
ghost use Rattle.parity_rules.specs.Division.{syndrome};

use crate::division::byte_in;

// The syndrome of x^k: of the bit with k bits after it, in a message of either length. Worked out from the generator, with no table:
// a power below x^24 is its own, and a byte of zeros moves it up by eight.
pub(crate) fn syndrome_of(k: usize) -> u32
    requires { k < 112 }
    ensures { result ≡ syndrome k }
{
    let at = if k < 24 { k } else { 16 + k % 8 };
    let mut r: u32 = 1 << at;
    for _ in 2..k / 8 {
        r = byte_in(r, 0);
    }
    r
}
