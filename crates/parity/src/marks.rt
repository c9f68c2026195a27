// The marked bits of a message: how many, and their syndromes.
ghost use Rattle.std.specs.Prelude.{◌≡◌, length, get_or, ◌*◌, ◌<◌, ◌≤◌};
ghost use Rattle.parity_rules.specs.Messages.{bits};
ghost use Rattle.parity_rules.specs.Division.{syndrome};
ghost use Rattle.parity_rules.specs.Steps.{Noted, Gathered};

use crate::syndrome::syndrome_of;

// Bit i of some bytes, from 0, which they have.
pub(crate) fn bit(s: &[u8], i: usize) -> u32
    requires { i < length s.now * 8 }
    ensures { result ≡ get_or (bits s.now) i 0 }
{
    let at = i / 8;
    let b = s[at] as u32;
    (b >> (7 - (i % 8) as u32)) % 2
}

// Bit i of some bytes, from 0; beyond their end there is none, which reads as 0.
pub fn bit_at(s: &[u8], i: usize) -> u32
    ensures { result ≡ get_or (bits s.now) i 0 }
{
    if s.len() <= i / 8 {
        return 0;
    }
    bit(s, i)
}

// One bit more, before those noted: b is whether it is marked, and k how many bits come after it.
fn noted(syns: &mut [u32; 12], many: usize, b: u32, k: usize) -> usize
    requires { (length syns.old ≡ 12) × (many < 112) × (b < 2) × (k < 112) }
    ensures { Noted many syns.old b (syndrome k) result syns.new }
{
    if b == 0 {
        return many;
    }
    if 12 <= many {
        return many + 1;
    }
    syns[many] = syndrome_of(k);
    many + 1
}

// How many bits are marked. The syndromes of the last twelve of them are written from the last marked bit to the first.
pub(crate) fn gather(marks: &[u8], syns: &mut [u32; 12]) -> usize
    requires { (length marks.now ≤ 14) × (length syns.old ≡ 12) }
    ensures { Gathered (bits marks.now) result syns.new }
{
    let n = marks.len() * 8;
    let mut many: usize = 0;
    for k in 0..n {
        many = noted(syns, many, bit(marks, n - 1 - k), k);
    }
    many
}
