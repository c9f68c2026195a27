// The lines `up HEX` and `down HEX`.
ghost use Rattle.text_rules.specs.Put.{Put};
ghost use Rattle.text_rules.specs.Line.{words_of};
ghost use Rattle.console_rules.specs.Frames.{interrogation_text, reply_text, up_text, down_text};

use crate::answers::put_refused;
use crate::values::{put_eleven, put_seven};
use crate::words::bytes_at;
use frames::{Down, Up};

// A reply's values, or the refusal.
fn put_reply(out: &mut [u8], msg: &[u8]) -> usize
    ensures { Put (reply_text msg.now) 0 out.old out.new result }
{
    match frames::read_down(msg) {
        Ok(
            Down::Surveillance {
                df,
                fs,
                dr,
                um,
                value,
                mb: _,
                remainder,
            },
        ) => put_seven(
            out,
            df as u32,
            fs as u32,
            dr as u32,
            um as u32,
            value as u32,
            frames::mb_part(msg),
            remainder,
        ),
        Ok(
            Down::AllCall {
                ca,
                address,
                remainder,
            },
        ) => {
            let numbers = [11, ca as u32, address];
            put_eleven(out, &numbers, remainder)
        }
        Err(r) => put_refused(out, r),
    }
}

// A reply read alone.
pub(crate) fn put_down(line: &[u8], out: &mut [u8]) -> usize
    ensures { Put (down_text (words_of line.now)) 0 out.old out.new result }
{
    let mut msg = [0u8; 32];
    let n = bytes_at(line, 1, &mut msg);
    put_reply(out, &msg[..n])
}

// An interrogation's values, or the refusal.
fn put_interrogation(out: &mut [u8], msg: &[u8]) -> usize
    ensures { Put (interrogation_text msg.now) 0 out.old out.new result }
{
    match frames::read_up(msg) {
        Ok(
            Up::Selective {
                uf,
                pc,
                rr,
                di,
                sd,
                ma: _,
                remainder,
            },
        ) => put_seven(
            out,
            uf as u32,
            pc as u32,
            rr as u32,
            di as u32,
            sd as u32,
            frames::mb_part(msg),
            remainder,
        ),
        Ok(
            Up::AllCall {
                pr,
                ic,
                cl,
                remainder,
            },
        ) => {
            let numbers = [11, pr as u32, ic as u32, cl as u32];
            put_eleven(out, &numbers, remainder)
        }
        Err(r) => put_refused(out, r),
    }
}

// An interrogation read alone.
pub(crate) fn put_up(line: &[u8], out: &mut [u8]) -> usize
    ensures { Put (up_text (words_of line.now)) 0 out.old out.new result }
{
    let mut msg = [0u8; 32];
    let n = bytes_at(line, 1, &mut msg);
    put_interrogation(out, &msg[..n])
}
