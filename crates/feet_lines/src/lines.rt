// The lines of the program feet, as their very bytes.
ghost use Rattle.text_rules.specs.Put.{Put};
ghost use Rattle.text_rules.specs.Line.{words_of};
ghost use Rattle.altitude_rules.specs.Code.{altitude};
ghost use Rattle.console_rules.specs.FeetLines.{value_text, answer_text, code_text, words_text, line_text};

use altitude_rules::Altitude;
use refusals::Refusal;

// What stands behind the answer's number, and the line's end.
fn put_value(out: &mut [u8], at: usize, a: Result<Altitude, Refusal>) -> usize
    ensures { Put (value_text a) at out.old out.new result }
{
    match a {
        Ok(Altitude::Feet(z)) => {
            let sign = text::put_byte(out, at, 32);
            let end = text::put_signed(out, sign, z);
            text::put_byte(out, end, 10)
        }
        Ok(Altitude::None) => text::put_bytes(out, at, b" none\n"),
        Ok(Altitude::Metric) => text::put_bytes(out, at, b" metric\n"),
        Err(_) => text::put_byte(out, at, 10),
    }
}

// The answer for a code: its number, its value and the line's end.
pub fn put_answer(out: &mut [u8], at: usize, ac: u32) -> usize
    ensures { Put (answer_text (altitude ac)) at out.old out.new result }
{
    let a = altitude::read(ac);
    let value = text::put_decimal(out, at, refusals::number_given(&a) as u32);
    put_value(out, value, a)
}

// The line of a code.
fn put_code(out: &mut [u8], ac: u32) -> usize
    ensures { Put (code_text ac) 0 out.old out.new result }
{
    let gap = text::put_decimal(out, 0, ac);
    let answer = text::put_byte(out, gap, 32);
    put_answer(out, answer, ac)
}

// What a line prints that is not too long.
fn put_words(line: &[u8], out: &mut [u8]) -> usize
    ensures { Put (words_text (words_of line.now)) 0 out.old out.new result }
{
    let first = text::word(line, 0);
    let from = first.from;
    let to = first.to;
    if to <= from {
        return 0;
    }
    let second = text::word(line, to);
    if second.from < second.to {
        return text::put_bytes(out, 0, b"- 2\n");
    }
    match text::number(&line[from..to], 9) {
        Some(ac) => put_code(out, ac),
        None => text::put_bytes(out, 0, b"- 2\n"),
    }
}

// A line as the text that feet prints for it.
pub fn feet_line(line: &[u8], out: &mut [u8]) -> usize
    ensures { Put (line_text line.now) 0 out.old out.new result }
{
    if 1000 < line.len() {
        return text::put_bytes(out, 0, b"- 2\n");
    }
    put_words(line, out)
}
