// The search through the subsets of the marked bits: recursion on the marked bits left, each taken or not, counting matches.
ghost use Rattle.std.specs.Prelude.{◌≡◌, [], length, drop, ◌*◌, ◌<◌, ◌≤◌};
ghost use Rattle.parity_rules.specs.Messages.{bits};
ghost use Rattle.parity_rules.specs.Correction.{matching, first};
ghost use Rattle.parity_rules.specs.Steps.{ways, back, Left, Chosen, ChosenByte};

use crate::marks::bit;

// With no marked bit left: one way if nothing is left to match, else none.
fn hit(want: u32) -> u32
    ensures { (result ≡ ways want []) × (result ≤ 1) }
{
    if want == 0 { 1 } else { 0 }
}

// In how many ways the first k syndromes, each taken or not, have the XOR want. The last one is decided on the spot.
pub(crate) fn count(syns: &[u32; 12], k: usize, want: u32) -> u32
    requires { k ≤ 12 }
    ensures { result ≡ ways want (back k syns.now) }
{
    if k == 0 {
        return hit(want);
    }
    let next = k - 1;
    let with = want ^ syns[next];
    if next == 0 {
        return hit(with) + hit(want);
    }
    count(syns, next, with) + count(syns, next, want)
}

// Whether a bit is taken, and what is left: how many marked bits, and what is to match.
#[derive(Clone, Copy)]
struct Choice {
    taken: u32,
    k: usize,
    want: u32,
}

// Whether bit i is in the one matching subset of the bits from i on, and what is then left to match.
fn choose(marks: &[u8], i: usize, syns: &[u32; 12], k: usize, want: u32) -> Choice
    requires { (i < length marks.now * 8) × Left (bits marks.now) syns.now i k want (first (matching want (drop i (bits marks.now)))) }
    ensures { Chosen (bits marks.now) syns.now i want
        (first (matching want (drop i (bits marks.now)))) result.taken result.k result.want }
{
    if bit(marks, i) == 0 {
        return Choice { taken: 0, k, want };
    }
    let next = k - 1;
    let with = want ^ syns[next];
    if count(syns, next, with) == 1 {
        return Choice {
            taken: 1,
            k: next,
            want: with,
        };
    }
    Choice {
        taken: 0,
        k: next,
        want,
    }
}

// The places taken among eight, as a mask and a number, and what is left.
#[derive(Clone, Copy)]
pub(crate) struct Part {
    pub(crate) mask: u32,
    pub(crate) taken: u32,
    pub(crate) k: usize,
    pub(crate) want: u32,
}

// The eight places of byte j in the one matching subset, and what is then left to match.
pub(crate) fn choose_byte(marks: &[u8], j: usize, syns: &[u32; 12], k: usize, want: u32) -> Part
    requires { (j < length marks.now) × (length marks.now ≤ 14)
        × Left (bits marks.now) syns.now (j * 8) k want (first (matching want (drop (j * 8) (bits marks.now)))) }
    ensures { ChosenByte (bits marks.now) syns.now (j * 8)
        (first (matching want (drop (j * 8) (bits marks.now)))) result.mask result.taken result.k result.want }
{
    let mut p = Part {
        mask: 0,
        taken: 0,
        k,
        want,
    };
    for t in 0..8 {
        let c = choose(marks, j * 8 + t, syns, p.k, p.want);
        p = Part {
            mask: p.mask * 2 + c.taken,
            taken: p.taken + c.taken,
            k: c.k,
            want: c.want,
        };
    }
    p
}
