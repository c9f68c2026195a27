// Numbers as bytes, the highest first.
ghost use Rattle.std.specs.Prelude.{◌≡◌, length, take, ◌+◌, ◌*◌, ◌^◌, ◌<◌, ◌≤◌};
ghost use Rattle.std.proofs.lemmas.List.Edits.{sets};
ghost use Rattle.frames_rules.specs.Bytes.{bytes_of, number_of_bytes};

// The number that at most seven bytes are.
pub(crate) fn number_in(s: &[u8]) -> u64
    requires { length s.now ≤ 7 }
    ensures { (result ≡ number_of_bytes s.now) × (result < 2 ^ (8 * length s.now)) }
{
    let mut r: u64 = 0;
    for &b in s {
        r = r * 256 + b as u64;
    }
    r
}

// The number that some bytes are; of more than seven, that of the first seven.
pub fn number_of(s: &[u8]) -> u64
    ensures { result ≡ number_of_bytes (take 7 s.now) }
{
    if 7 < s.len() {
        return number_in(&s[0..7]);
    }
    number_in(s)
}

// Writes the n low bytes of a number from a place on.
pub(crate) fn put(v: u64, n: usize, at: usize, out: &mut [u8])
    requires { (n ≤ 7) × (at + n ≤ length out.old) }
    ensures { out.new ≡ sets out.old at (bytes_of n v) }
{
    out[at..at + n].copy_from_slice(&v.to_be_bytes()[8 - n..]);
}
