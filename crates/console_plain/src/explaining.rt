// The line `explain NUMBER`.
ghost use Rattle.text_rules.specs.Put.{Put};
ghost use Rattle.text_rules.specs.Line.{words_of};
ghost use Rattle.console_rules.specs.Explain.{meaning_text, explain_text};

use crate::answers::put_refusal;
use crate::words::number_at;

// How many numbers there are.
const NUMBERS: u32 = 20;

// 0 and what the number of an answer means, a line of the text for each, or 2 for a number that means nothing.
fn put_meaning(out: &mut [u8], n: u32) -> usize
    ensures { Put (meaning_text n) 0 out.old out.new result }
{
    if NUMBERS <= n {
        return put_refusal(out, 2);
    }
    let meanings: &[u8] = b"done\n\
        a message not of 7 or 14 bytes, or a buffer not as long as the message\n\
        a number outside its range\n\
        a guarantee above its ceiling, or shares that do not fit the period\n\
        the address is not in the target list\n\
        the address is there already\n\
        full: 64 targets, 16 requests of the unit, 8 messages in the model\n\
        no such entry in the plan\n\
        the entry is answered or withdrawn\n\
        the reply has not the entry's length\n\
        the reply starts outside the entry's limits\n\
        more marked bits than the station's limit\n\
        no subset of the marked bits matches\n\
        more than one subset matches\n\
        the format is not the expected one, or not listed\n\
        a model time before its last time\n\
        an unknown kind of record; the run ends\n\
        a record cut by the end of the stream; the run ends\n\
        an altitude pattern that the 100 ft code does not have\n\
        an altitude that has no code\n";
    let w = text::nth_line(meanings, n as usize);
    let from = w.from;
    let to = w.to;
    let value = text::put_bytes(out, 0, b"0 ");
    let end = text::put_bytes(out, value, &meanings[from..to]);
    text::put_byte(out, end, 10)
}

// What the number of an answer means.
pub(crate) fn put_explain(line: &[u8], out: &mut [u8]) -> usize
    ensures { Put (explain_text (words_of line.now)) 0 out.old out.new result }
{
    put_meaning(out, number_at(line, 1))
}
