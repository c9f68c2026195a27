// The lines `feet AC` and `ac FEET`.
ghost use Rattle.text_rules.specs.Put.{Put, decimal};
ghost use Rattle.text_rules.specs.Line.{words_of};
ghost use Rattle.altitude_rules.specs.WayBack.{written_said};
ghost use Rattle.console_rules.specs.Texts.{done_text};
ghost use Rattle.console_rules.specs.Feet.{feet_text, written_text, ac_text};

use crate::answers::put_refusal;
use crate::words::{integer_at, number_at};
use refusals::Refusal;

// The altitude that a code says.
pub(crate) fn put_feet(line: &[u8], out: &mut [u8]) -> usize
    ensures { Put (feet_text (words_of line.now)) 0 out.old out.new result }
{
    feet_lines::put_answer(out, 0, number_at(line, 1))
}

// 0 and a code.
fn put_code_of(out: &mut [u8], ac: u32) -> usize
    ensures { Put (done_text (decimal ac)) 0 out.old out.new result }
{
    let value = text::put_bytes(out, 0, b"0 ");
    let end = text::put_decimal(out, value, ac);
    text::put_byte(out, end, 10)
}

// 0 and a code, or the refusal's number.
fn put_written(out: &mut [u8], w: Result<u32, Refusal>) -> usize
    ensures { Put (written_text (written_said w)) 0 out.old out.new result }
{
    match w {
        Ok(ac) => put_code_of(out, ac),
        Err(refusal) => put_refusal(out, u8::from(refusal) as u32),
    }
}

// The code of an altitude.
pub(crate) fn put_ac(line: &[u8], out: &mut [u8]) -> usize
    ensures { Put (ac_text (words_of line.now)) 0 out.old out.new result }
{
    put_written(out, altitude::write(integer_at(line, 1)))
}
