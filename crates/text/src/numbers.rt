// A word read as a decimal number.
ghost use Rattle.std.specs.Prelude.{◌≡◌};
ghost use Rattle.text_rules.specs.Number.{number_in};

// The number that a word of one to most decimal digits says, if it is below 2^32; leading zeros count as digits.
pub fn number(word: &[u8], most: usize) -> Option<u32>
    ensures { result ≡ number_in most word.now }
{
    if word.is_empty() || most < word.len() {
        return None;
    }
    let mut value: u32 = 0;
    for &b in word {
        if !b.is_ascii_digit() {
            return None;
        }
        value = value.checked_mul(10)?.checked_add((b - b'0') as u32)?;
    }
    Some(value)
}
