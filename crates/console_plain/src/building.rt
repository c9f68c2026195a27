// The lines `build UF PC RR DI SD MA ADDRESS` and `allcall PR IC CL`.
ghost use Rattle.text_rules.specs.Put.{Put};
ghost use Rattle.text_rules.specs.Line.{words_of};
ghost use Rattle.frames_rules.specs.Answers.{built_said};
ghost use Rattle.console_rules.specs.Building.{built_text, selective_text, build_text, all_call_text};

use crate::answers::put_refused;
use crate::values::is_long;
use crate::words::{bytes_at, number_at};
use refusals::Refusal;

// The frame that was built, or the refusal.
fn put_built(out: &mut [u8], b: Result<(), Refusal>, frame: &[u8]) -> usize
    ensures { Put (built_text (built_said b frame.now)) 0 out.old out.new result }
{
    match b {
        Ok(()) => {
            let value = text::put_bytes(out, 0, b"0 ");
            let end = text::put_hex(out, value, frame);
            text::put_byte(out, end, 10)
        }
        Err(r) => put_refused(out, r),
    }
}

// UF 4, 5, 20 or 21 into a buffer of zeros that is as long as the message.
fn put_selective(
    out: &mut [u8],
    uf: u32,
    pc: u32,
    rr: u32,
    di: u32,
    sd: u32,
    ma: &[u8],
    address: u32,
) -> usize
    ensures { Put (selective_text uf pc rr di sd ma.now address) 0 out.old out.new result }
{
    if is_long(uf) {
        let mut frame = [0u8; 14];
        let b = frames::build(uf, pc, rr, di, sd, ma, address, &mut frame);
        return put_built(out, b, &frame);
    }
    let mut frame = [0u8; 7];
    let b = frames::build(uf, pc, rr, di, sd, ma, address, &mut frame);
    put_built(out, b, &frame)
}

// The fields of a selective interrogation, MA and the address.
pub(crate) fn put_build(line: &[u8], out: &mut [u8]) -> usize
    ensures { Put (build_text (words_of line.now)) 0 out.old out.new result }
{
    let uf = number_at(line, 1);
    let pc = number_at(line, 2);
    let rr = number_at(line, 3);
    let di = number_at(line, 4);
    let sd = number_at(line, 5);
    let mut ma = [0u8; 32];
    let n = bytes_at(line, 6, &mut ma);
    let address = number_at(line, 7);
    put_selective(out, uf, pc, rr, di, sd, &ma[..n], address)
}

// The fields of an all-call.
pub(crate) fn put_all_call_frame(line: &[u8], out: &mut [u8]) -> usize
    ensures { Put (all_call_text (words_of line.now)) 0 out.old out.new result }
{
    let pr = number_at(line, 1);
    let ic = number_at(line, 2);
    let cl = number_at(line, 3);
    let mut frame = [0u8; 7];
    let b = frames::all_call(pr, ic, cl, &mut frame);
    put_built(out, b, &frame)
}
