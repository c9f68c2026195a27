// The values of a frame that was read, laid behind a 0.
ghost use Rattle.std.specs.Prelude.{◌≡◌, ◌∷◌, []};
ghost use Rattle.text_rules.specs.Put.{Put};
ghost use Rattle.text_rules.specs.Hex.{hex_in};
ghost use Rattle.frames_rules.specs.Formats.{long_format};
ghost use Rattle.console_rules.specs.Texts.{done_text};
ghost use Rattle.console_rules.specs.Frames.{number_text, numbers_text, end_text, values_text};

// A number, with a space behind it.
fn put_number(out: &mut [u8], at: usize, n: u32) -> usize
    ensures { Put (number_text n) at out.old out.new result }
{
    let end = text::put_decimal(out, at, n);
    text::put_byte(out, end, 32)
}

// Numbers, each with a space behind it.
pub(crate) fn put_numbers(out: &mut [u8], at: usize, numbers: &[u32]) -> usize
    ensures { Put (numbers_text numbers.now []) at out.old out.new result }
{
    if out.len() <= at {
        return out.len();
    }
    let mut next = at;
    for &n in numbers {
        next = put_number(out, next, n);
    }
    next
}

// Whether a format is long: 20 or 21.
pub(crate) fn is_long(f: u32) -> bool
    ensures { result ≡ long_format f }
{
    if f == 20 {
        return true;
    }
    f == 21
}

// The remainder, with MA or MB before it for the formats 20 and 21.
fn put_end(out: &mut [u8], at: usize, f: u32, part: &[u8], remainder: u32) -> usize
    ensures { Put (end_text f part.now remainder) at out.old out.new result }
{
    if !is_long(f) {
        return text::put_hex6(out, at, remainder);
    }
    let gap = text::put_hex(out, at, part);
    let end = text::put_byte(out, gap, 32);
    text::put_hex6(out, end, remainder)
}

// The seven values of format 4, 5, 20 or 21.
pub(crate) fn put_seven(
    out: &mut [u8],
    f: u32,
    a: u32,
    b: u32,
    c: u32,
    d: u32,
    part: &[u8],
    remainder: u32,
) -> usize
    ensures { Put (done_text (values_text (f ∷ a ∷ b ∷ c ∷ d ∷ 0 ∷ remainder ∷ []) part.now)) 0 out.old out.new result }
{
    let numbers = [f, a, b, c, d];
    let first = text::put_bytes(out, 0, b"0 ");
    let next = put_numbers(out, first, &numbers);
    let end = put_end(out, next, f, part, remainder);
    text::put_byte(out, end, 10)
}

// The values of format 11: numbers, and the remainder.
pub(crate) fn put_eleven(out: &mut [u8], numbers: &[u32], remainder: u32) -> usize
    ensures { Put (done_text (numbers_text numbers.now (hex_in 6 remainder))) 0 out.old out.new result }
{
    let first = text::put_bytes(out, 0, b"0 ");
    let next = put_numbers(out, first, numbers);
    let end = text::put_hex6(out, next, remainder);
    text::put_byte(out, end, 10)
}
