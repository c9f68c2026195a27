// The text of an answer, laid at the front of a lent buffer.
ghost use Rattle.std.specs.Prelude.{ℕ, List};
ghost use Rattle.text_rules.specs.Put.{Put};
ghost use Rattle.text_rules.specs.Hex.{hex_in};
ghost use Rattle.refusals.specs.Refusals.{number_of};
ghost use Rattle.parity_rules.specs.Answers.{reckoned_said};
ghost use Rattle.console_rules.specs.Texts.{done_text, refusal_text, answer_text};
ghost use Rattle.console_rules.specs.Parity.{reckoned_text};

use refusals::Refusal;

// A refusal's number alone.
pub fn put_refusal(out: &mut [u8], n: u32) -> usize
    ensures { Put (refusal_text n) 0 out.old out.new result }
{
    let end = text::put_decimal(out, 0, n);
    text::put_byte(out, end, 10)
}

// The number of a call that is refused, whatever it would have answered.
pub(crate) fn put_refused(out: &mut [u8], r: Refusal) -> usize
    ensures { (value : List ℕ) → Put (answer_text (number_of r) value) 0 out.old out.new result }
{
    put_refusal(out, u8::from(r) as u32)
}

// 0 and a number of 24 bits.
fn put_six_digits(out: &mut [u8], n: u32) -> usize
    ensures { Put (done_text (hex_in 6 n)) 0 out.old out.new result }
{
    let value = text::put_bytes(out, 0, b"0 ");
    let end = text::put_hex6(out, value, n);
    text::put_byte(out, end, 10)
}

// A reckoned number, or its refusal.
pub(crate) fn put_reckoned(out: &mut [u8], a: Result<u32, Refusal>) -> usize
    ensures { Put (reckoned_text (reckoned_said a)) 0 out.old out.new result }
{
    match a {
        Ok(n) => put_six_digits(out, n),
        Err(r) => put_refused(out, r),
    }
}
