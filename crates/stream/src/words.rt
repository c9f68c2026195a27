// A word of a line and the byte behind it: a space, or the newline that ends the line.
ghost use Rattle.std.specs.Prelude.{[]};
ghost use Rattle.text_rules.specs.Put.{decimal};
ghost use Rattle.stream_rules.specs.Lines.{followed};
ghost use Rattle.stream.specs.Calls.{Within};

pub(crate) const SPACE: u8 = 32;

pub(crate) const NEWLINE: u8 = 10;

// A number, and the byte behind it.
pub(crate) fn put_number(out: &mut [u8], at: usize, n: u32, behind: u8) -> usize
    ensures { Within 12 (followed (decimal n) behind) at out.old out.new result }
{
    let end = text::put_decimal(out, at, n);
    text::put_byte(out, end, behind)
}

// Nothing: the place itself, or the buffer's end where it is beyond that.
pub(crate) fn put_nothing(out: &mut [u8], at: usize) -> usize
    ensures { Within 0 [] at out.old out.new result }
{
    if out.len() <= at {
        return out.len();
    }
    at
}
