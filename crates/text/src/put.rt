// Text laid into a lent buffer, as far as the buffer goes: each call answers the place after its text.
ghost use Rattle.std.specs.Prelude.{◌∷◌, []};
ghost use Rattle.text_rules.specs.Put.{Put, decimal};

// One byte.
pub fn put_byte(out: &mut [u8], at: usize, b: u8) -> usize
    ensures { Put (b ∷ []) at out.old out.new result }
{
    if at < out.len() {
        out[at] = b;
        return at + 1;
    }
    out.len()
}

// The bytes of t; none is looked at where there is no room.
pub fn put_bytes(out: &mut [u8], at: usize, t: &[u8]) -> usize
    ensures { Put t.now at out.old out.new result }
{
    if out.len() <= at {
        return out.len();
    }
    let mut next = at;
    for &b in t {
        next = put_byte(out, next, b);
    }
    next
}

// The decimal digits of n.
pub fn put_decimal(out: &mut [u8], at: usize, n: u32) -> usize
    ensures { Put (decimal n) at out.old out.new result }
{
    let mut text = [0u8; 20];
    let k = io::decimal(n as u64, &mut text);
    put_bytes(out, at, &text[..k])
}

// A minus sign, and the decimal digits of n.
pub(crate) fn put_minus(out: &mut [u8], at: usize, n: u32) -> usize
    ensures { Put (45 ∷ decimal n) at out.old out.new result }
{
    let next = put_byte(out, at, 45);
    put_decimal(out, next, n)
}
