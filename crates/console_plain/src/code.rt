// The line `code HEX CL IC PERMIT`.
ghost use Rattle.text_rules.specs.Put.{Put};
ghost use Rattle.text_rules.specs.Line.{words_of};
ghost use Rattle.frames_rules.specs.Answers.{code_said};
ghost use Rattle.console_rules.specs.Frames.{whose_text, code_text};

use crate::answers::put_refused;
use crate::words::{bytes_at, number_at};
use frames::Code;
use refusals::Refusal;

// Whose code it is, or the refusal.
fn put_whose(out: &mut [u8], a: Result<Code, Refusal>) -> usize
    ensures { Put (whose_text (code_said a)) 0 out.old out.new result }
{
    match a {
        Ok(Code::Own) => text::put_bytes(out, 0, b"0 own\n"),
        Ok(Code::Matching) => text::put_bytes(out, 0, b"0 matching\n"),
        Ok(Code::Other) => text::put_bytes(out, 0, b"0 other\n"),
        Err(r) => put_refused(out, r),
    }
}

// A reply, and a station's CL, IC and permission.
pub(crate) fn put_code(line: &[u8], out: &mut [u8]) -> usize
    ensures { Put (code_text (words_of line.now)) 0 out.old out.new result }
{
    let mut msg = [0u8; 32];
    let n = bytes_at(line, 1, &mut msg);
    let cl = number_at(line, 2);
    let ic = number_at(line, 3);
    let permit = number_at(line, 4);
    put_whose(out, frames::code_of(&msg[..n], cl, ic, permit))
}
