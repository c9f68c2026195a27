// The line `request UNIT ADDRESS UF PC RR DI SD MA`.
ghost use Rattle.text_rules.specs.Line.{words_of};
ghost use Rattle.console_rules.specs.Station.{Spoke, request_spoken};

use crate::answers::{put_outcome, put_refused};
use crate::held::request_in;
use refusals::Refusal;
use station_rules::Station;

// Takes a request, whose MA has seven bytes.
pub(crate) fn put_request(line: &[u8], s: &mut Station, out: &mut [u8]) -> usize
    ensures { Spoke (request_spoken s.old (words_of line.now)) out.old out.new s.new result }
{
    let mut ma = [0u8; 32];
    let n = console_plain::bytes_at(line, 8, &mut ma);
    if n != 7 {
        return put_refused(Refusal::Length, out);
    }
    match request_in(line, frames::number_of(&ma[..n])) {
        Some(q) => put_outcome(station::take_request(s, q), out),
        None => put_refused(Refusal::Range, out),
    }
}
