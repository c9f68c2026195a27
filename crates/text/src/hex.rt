// Bytes in hex: made with upper-case digits, and read with either.
ghost use Rattle.std.specs.Prelude.{◌*◌, ◌^◌, ◌≤◌, ◌<◌, ◌≡◌, true, map, length};
ghost use Rattle.text_rules.specs.Put.{Put, laid};
ghost use Rattle.text_rules.specs.Hex.{upper_of, hex_in, hex_of, hex_value, all_hex, pairs, HexRead};

use crate::line::same;
use crate::put::put_byte;

// Two upper-case digits for each byte.
pub fn put_hex(out: &mut [u8], at: usize, bytes: &[u8]) -> usize
    ensures { Put (hex_of bytes.now) at out.old out.new result }
{
    if out.len() <= at {
        return out.len();
    }
    let mut next = at;
    for &b in bytes {
        next = put_digits(out, next, b as u32, 2);
    }
    next
}

// The six upper-case digits of n's 24 low bits.
pub fn put_hex6(out: &mut [u8], at: usize, n: u32) -> usize
    ensures { Put (hex_in 6 n) at out.old out.new result }
{
    put_digits(out, at, n % 16777216, 6)
}

// The width digits of n, which has no more.
fn put_digits(out: &mut [u8], at: usize, n: u32, width: usize) -> usize
    requires { (n < 16 ^ width) × (1 ≤ width) × (width ≤ 16) }
    ensures { Put (hex_in width n) at out.old out.new result }
{
    let mut text = [0u8; 16];
    let k = io::hex(n as u64, width, &mut text);
    put_upper(out, at, &text[..k])
}

// The bytes of t, its letters in upper case.
fn put_upper(out: &mut [u8], at: usize, t: &[u8]) -> usize
    ensures { Put (map upper_of t.now) at out.old out.new result }
{
    if out.len() <= at {
        return out.len();
    }
    let mut next = at;
    for &b in t {
        next = put_byte(out, next, upper(b));
    }
    next
}

// A digit with its letter in upper case.
fn upper(b: u8) -> u8
    ensures { result ≡ upper_of b }
{
    if b < 97 { b } else { b - 32 }
}

// The bytes that a word says, at the front of out: two digits for each, at most 32 bytes, and "-" for none.
pub fn hex_bytes(word: &[u8], out: &mut [u8; 32]) -> Option<usize>
    ensures { HexRead word.now out.old out.new result }
{
    if same(word, b"-") {
        return Some(0);
    }
    if word.is_empty() || 64 < word.len() || word.len() % 2 != 0 || !all_hex(word) {
        return None;
    }
    let n = word.len() / 2;
    fill(word, out, n);
    Some(n)
}

// Every byte of the word is a hex digit.
pub(crate) fn all_hex(word: &[u8]) -> bool
    ensures { result ≡ all_hex word.now }
{
    word.iter().all(|&b| hex_value(b) < 16)
}

// The n bytes that 2n digits say.
fn fill(word: &[u8], out: &mut [u8; 32], n: usize)
    requires { (length word.now ≡ 2 * n) × (n ≤ 32) × (all_hex word.now ≡ true) }
    ensures { out.new ≡ laid (pairs word.now) 0 out.old }
{
    for i in 0..n {
        let high = hex_value(word[2 * i]);
        let low = hex_value(word[2 * i + 1]);
        out[i] = high * 16 + low;
    }
}

// What a hex digit counts; 16 for any other byte.
pub(crate) fn hex_value(b: u8) -> u8
    ensures { result ≡ hex_value b }
{
    if b < 48 {
        return 16;
    }
    if b <= 57 {
        return b - 48;
    }
    if b < 65 {
        return 16;
    }
    if b <= 70 {
        return b - 55;
    }
    if b < 97 {
        return 16;
    }
    if b <= 102 {
        return b - 87;
    }
    16
}
