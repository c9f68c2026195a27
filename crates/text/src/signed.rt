// A number with its sign: laid into a lent buffer, and read from a word.
ghost use Rattle.std.specs.Prelude.{◌≡◌};
ghost use Rattle.text_rules.specs.Put.{Put};
ghost use Rattle.text_rules.specs.Signed.{signed_decimal, upward, downward, integer_of};

use crate::bases::number_of;
use crate::numbers::number;
use crate::put::{put_decimal, put_minus};

// The decimal digits of z, after a minus sign where it is below zero.
pub fn put_signed(out: &mut [u8], at: usize, z: i32) -> usize
    ensures { Put (signed_decimal z) at out.old out.new result }
{
    if z < 0 {
        let less = 0 - (z + 1);
        put_minus(out, at, less as u32 + 1)
    } else {
        put_decimal(out, at, z as u32)
    }
}

// A number without a minus sign.
fn up(n: Option<u32>) -> Option<i32>
    ensures { result ≡ upward n }
{
    i32::try_from(n?).ok()
}

// A number behind a minus sign.
fn down(n: Option<u32>) -> Option<i32>
    ensures { result ≡ downward n }
{
    0i32.checked_sub_unsigned(n?)
}

// The number with its sign that a word says: a minus sign and at most ten decimal digits, or a number without a sign.
pub fn integer_of(word: &[u8]) -> Option<i32>
    ensures { result ≡ integer_of word.now }
{
    match word.strip_prefix(b"-") {
        Some(digits) => down(number(digits, 10)),
        None => up(number_of(word)),
    }
}
