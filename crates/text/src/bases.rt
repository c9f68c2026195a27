// A word read as a number: in decimal, or in hex behind 0x.
ghost use Rattle.std.specs.Prelude.{◌≡◌};
ghost use Rattle.text_rules.specs.Bases.{hex_number, number_of};

use crate::hex::{all_hex, hex_value};
use crate::numbers::number;

// The number that one to eight hex digits say.
fn hex_number(digits: &[u8]) -> Option<u32>
    ensures { result ≡ hex_number digits.now }
{
    if digits.is_empty() || 8 < digits.len() || !all_hex(digits) {
        return None;
    }
    let mut value: u32 = 0;
    for &b in digits {
        value = value * 16 + hex_value(b) as u32;
    }
    Some(value)
}

// The number that a word says: at most ten decimal digits and below 2^32, or 0x and one to eight hex digits.
pub fn number_of(word: &[u8]) -> Option<u32>
    ensures { result ≡ number_of word.now }
{
    match word.strip_prefix(b"0x") {
        Some(digits) => hex_number(digits),
        None => number(word, 10),
    }
}
