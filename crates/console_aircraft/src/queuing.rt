// The line `queue HEX`.
ghost use Rattle.text_rules.specs.Line.{words_of};
ghost use Rattle.console_rules.specs.Aircraft.{Showed, queue_said};

use crate::answers::put_number;
use crate::state::of_zeros;
use model_rules::Transponder;
use refusals::number_given;

// Queues a message.
pub(crate) fn put_queue(line: &[u8], a: &mut Option<Transponder>, out: &mut [u8]) -> usize
    ensures { Showed (queue_said a.old (words_of line.now)) out.old out.new a.new result }
{
    let mut message = [0u8; 32];
    let n = console_plain::bytes_at(line, 1, &mut message);
    let t = a.get_or_insert_with(of_zeros);
    put_number(number_given(&model::queue(t, &message[..n])), out)
}
