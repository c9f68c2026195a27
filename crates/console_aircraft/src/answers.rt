// The answers without a value.
ghost use Rattle.console_rules.specs.Texts.{Brief, refusal_text};

// A call's number alone.
pub(crate) fn put_number(n: u8, out: &mut [u8]) -> usize
    ensures { Brief (refusal_text n) out.old out.new result }
{
    console_plain::put_refusal(out, n as u32)
}
