// The line `send TIME DRAW HEX`.
ghost use Rattle.std.specs.Prelude.{◌≤◌, length};
ghost use Rattle.text_rules.specs.Put.{Put};
ghost use Rattle.text_rules.specs.Line.{words_of};
ghost use Rattle.model_rules.specs.Said.{reply_of};
ghost use Rattle.console_rules.specs.Texts.{Brief, done_text};
ghost use Rattle.console_rules.specs.Aircraft.{Showed, sent_text, send_said};

use crate::answers::put_number;
use crate::state::of_zeros;
use model::Sent;
use model_rules::Transponder;

// A reply's bytes, or "-" for none.
fn put_reply(out: &mut [u8], at: usize, sent: Option<Sent>) -> usize
    ensures { Put (sent_text (reply_of sent)) at out.old out.new result × (length (reply_of sent) ≤ 14) }
{
    match sent {
        Some(s) => text::put_hex(out, at, model::bytes(&s)),
        None => text::put_byte(out, at, 45),
    }
}

// 0 and the reply.
fn put_sent(sent: Option<Sent>, out: &mut [u8]) -> usize
    ensures { Brief (done_text (sent_text (reply_of sent))) out.old out.new result }
{
    let value = text::put_bytes(out, 0, b"0 ");
    let end = put_reply(out, value, sent);
    text::put_byte(out, end, 10)
}

// Sends a frame to the aircraft.
pub(crate) fn put_send(line: &[u8], a: &mut Option<Transponder>, out: &mut [u8]) -> usize
    ensures { Showed (send_said a.old (words_of line.now)) out.old out.new a.new result }
{
    let time = console_plain::number_at(line, 1);
    let draw = console_plain::number_at(line, 2);
    let mut frame = [0u8; 32];
    let n = console_plain::bytes_at(line, 3, &mut frame);
    let t = a.get_or_insert_with(of_zeros);
    match model::take(t, time, draw, &frame[..n]) {
        Ok(sent) => put_sent(sent, out),
        Err(r) => put_number(u8::from(r), out),
    }
}
