// The formats: which are listed at which length, and which one a request draws.
ghost use Rattle.std.specs.Prelude.{◌≡◌, ◌≤◌};
ghost use Rattle.frames_rules.specs.Answers.{draws_said};
ghost use Rattle.frames_rules.specs.Formats.{surveillance, long_format, length_of, listed};
ghost use Rattle.frames_rules.specs.Shared.{short_reply, drawn_told};

// Whether a format is one of 20 and 21.
pub(crate) fn long_format(f: u32) -> bool
    ensures { result ≡ long_format f }
{
    if f == 20 {
        return true;
    }
    f == 21
}

// Whether a format is one of 4, 5, 20 and 21.
pub fn surveillance(f: u32) -> bool
    ensures { result ≡ surveillance f }
{
    if f == 4 {
        return true;
    }
    if f == 5 {
        return true;
    }
    long_format(f)
}

// How many bytes a frame of a format has.
pub fn length_of(f: u32) -> usize
    ensures { result ≡ length_of f }
{
    if long_format(f) {
        return 14;
    }
    7
}

// Whether a format is listed and has this length.
pub(crate) fn listed(f: u32, n: usize) -> bool
    ensures { result ≡ listed f n }
{
    if n != length_of(f) {
        return false;
    }
    if f == 11 {
        return true;
    }
    surveillance(f)
}

// The short format that holds what a request asks for: DF 4 for AC, DF 5 for ID.
fn short_reply(uf: u32) -> u8
    ensures { (result ≡ short_reply uf) × (result ≤ 5) }
{
    if uf == 4 {
        return 4;
    }
    if uf == 20 {
        return 4;
    }
    5
}

// The format of the reply that a request draws; nothing for another UF or an RR above 31.
pub fn drawn(uf: u32, rr: u32) -> Option<u8>
    ensures { draws_said result ≡ drawn_told uf rr }
{
    if !surveillance(uf) || 31 < rr {
        return None;
    }
    if 16 <= rr {
        return Some(short_reply(uf) + 16);
    }
    Some(short_reply(uf))
}
