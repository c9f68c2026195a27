// Correction: the checks in the order of the numbers, then by how many subsets match.
ghost use Rattle.std.specs.Prelude.{◌≡◌, length, ◌≤◌};
ghost use Rattle.lists.specs.Checks.{checked};
ghost use Rattle.parity_rules.specs.Messages.{bits};
ghost use Rattle.parity_rules.specs.Answers.{buffers, fix_said, not_corrected};
ghost use Rattle.parity_rules.specs.Correction.{size_of, matching, first, flipped, mark_buffer, flipped_by, match_checks, correction};
ghost use Rattle.parity_rules.specs.Steps.{syndromes_of, back, Left};

use crate::division::remainder_of;
use crate::lengths::sized;
use crate::marks::gather;
use crate::search::{choose_byte, count};
use refusals::Refusal;

// Writes the message with the one matching subset flipped, and the subset as a mark buffer, and says how many places it has.
fn rebuild(
    msg: &[u8],
    marks: &[u8],
    syns: &[u32; 12],
    many: usize,
    want: u32,
    out: &mut [u8],
    places: &mut [u8],
) -> u32
    requires { (length marks.now ≡ length msg.now) × (length out.old ≡ length msg.now) × (length places.old ≡ length msg.now)
        × (length msg.now ≤ 14) × Left (bits marks.now) syns.now 0 many want (first (matching want (bits marks.now))) }
    ensures value { result ≡ size_of (first (matching want (bits marks.now))) }
    ensures out_after { out.new ≡ flipped msg.now (first (matching want (bits marks.now))) }
    ensures places_after { places.new ≡ mark_buffer (length msg.now) (first (matching want (bits marks.now))) }
{
    let mut k = many;
    let mut left = want;
    let mut flips: u32 = 0;
    for j in 0..msg.len() {
        let p = choose_byte(marks, j, syns, k, left);
        let mask = p.mask as u8;
        out[j] = msg[j] ^ mask;
        places[j] = mask;
        k = p.k;
        left = p.want;
        flips += p.taken;
    }
    flips
}

// What it comes to by how many subsets match, with the first of syns the syndromes of the marked bits.
fn settle(
    msg: &[u8],
    marks: &[u8],
    syns: &[u32; 12],
    many: usize,
    want: u32,
    out: &mut [u8],
    places: &mut [u8],
) -> Result<u32, Refusal>
    requires { (length marks.now ≡ length msg.now) × (length out.old ≡ length msg.now) × (length places.old ≡ length msg.now)
        × (length msg.now ≤ 14) × (many ≤ 12) × (back many syns.now ≡ syndromes_of (bits marks.now)) }
    ensures { fix_said result (buffers out.new places.new)
        ≡ checked (match_checks (matching want (bits marks.now))) (not_corrected (buffers out.old places.old))
        (flipped_by msg.now (matching want (bits marks.now))) }
{
    let found = count(syns, many, want);
    if found == 0 {
        return Err(Refusal::NoMatch);
    }
    if found != 1 {
        return Err(Refusal::Doubt);
    }
    Ok(rebuild(msg, marks, syns, many, want, out, places))
}

// Flips the one subset of the marked bits that makes the remainder the overlay, and tells its places as a mark buffer.
pub fn correct(
    msg: &[u8],
    marks: &[u8],
    overlay: u32,
    limit: u32,
    out: &mut [u8],
    places: &mut [u8],
) -> Result<u32, Refusal>
    ensures { fix_said result (buffers out.new places.new)
        ≡ correction msg.now marks.now overlay limit (buffers out.old places.old) }
{
    if !sized(msg.len(), marks.len(), out.len(), places.len()) {
        return Err(Refusal::Length);
    }
    if 0x100_0000 <= overlay || 12 < limit {
        return Err(Refusal::Range);
    }
    let most = limit as usize;
    let mut syns = [0u32; 12];
    let many = gather(marks, &mut syns);
    if most < many {
        return Err(Refusal::Marks);
    }
    let want = remainder_of(msg) ^ overlay;
    settle(msg, marks, &syns, many, want, out, places)
}
