// The lines `remainder HEX` and `overlay NUMBER`.
ghost use Rattle.text_rules.specs.Put.{Put};
ghost use Rattle.text_rules.specs.Line.{words_of};
ghost use Rattle.console_rules.specs.Parity.{remainder_text, overlay_text};

use crate::answers::put_reckoned;
use crate::words::{bytes_at, number_at};

// The remainder of a message.
pub(crate) fn put_remainder(line: &[u8], out: &mut [u8]) -> usize
    ensures { Put (remainder_text (words_of line.now)) 0 out.old out.new result }
{
    let mut msg = [0u8; 32];
    let n = bytes_at(line, 1, &mut msg);
    put_reckoned(out, parity::remainder(&msg[..n]))
}

// The uplink overlay of an address.
pub(crate) fn put_overlay(line: &[u8], out: &mut [u8]) -> usize
    ensures { Put (overlay_text (words_of line.now)) 0 out.old out.new result }
{
    let address = number_at(line, 1);
    put_reckoned(out, parity::uplink_overlay(address))
}
