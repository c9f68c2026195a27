// What stands at a place of the stream: bytes, numbers, records. Beyond the end every byte is 0.
ghost use Rattle.std.specs.Prelude.{◌≡◌, ◌+◌, ◌^◌, ◌≤◌, ◌<◌, min, length, get_or};
ghost use Rattle.reader_rules.specs.Answers.{found_said, said_at};
ghost use Rattle.reader_rules.specs.Records.{number_at, record_at, next_place};

use crate::kinds::body_length;
use reader_rules::Found;

// The byte k after a place.
pub(crate) fn byte_at(s: &[u8], at: usize, k: usize) -> u8
    ensures { result ≡ get_or s.now (at + k) 0 }
{
    let place = place_after(s, at, k);
    if place < s.len() {
        return s[place];
    }
    0
}

// The place k after a place, or the end of the stream.
pub(crate) fn place_after(s: &[u8], at: usize, k: usize) -> usize
    ensures { result ≡ min (length s.now) (at + k) }
{
    if s.len() <= at {
        return s.len();
    }
    if s.len() - at <= k {
        return s.len();
    }
    at + k
}

// The number of the k bytes that begin `from` after a place.
pub(crate) fn number_at(s: &[u8], at: usize, from: usize, k: usize) -> u64
    requires { (from ≤ 32) × (k ≤ 8) }
    ensures { (result ≡ number_at s.now (at + from) k) × (result < 256 ^ k) }
{
    let mut n: u64 = 0;
    for i in 0..k {
        n = n * 256 + u64::from(byte_at(s, at, from + i));
    }
    n
}

// What stands at a place.
pub fn record_at(s: &[u8], at: usize) -> Found
    ensures { found_said result ≡ said_at s.now at }
{
    if s.len() <= at {
        return Found::End;
    }
    let kind = s[at];
    let n = body_length(kind);
    if n == 0 {
        return Found::Unknown(kind);
    }
    let body = at + 1;
    if s.len() - body < n {
        return Found::Cut(kind);
    }
    Found::Whole {
        kind: kind,
        body: body,
        next: body + n,
    }
}

// The place of the next record, or this one where no whole record stands.
pub(crate) fn next_place(s: &[u8], at: usize) -> usize
    ensures { result ≡ next_place (record_at s.now at) at }
{
    match record_at(s, at) {
        Found::Whole {
            kind: _,
            body: _,
            next,
        } => next,
        _ => at,
    }
}
