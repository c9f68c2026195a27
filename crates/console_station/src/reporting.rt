// The line `report ADDRESS`.
ghost use Rattle.text_rules.specs.Line.{words_of};
ghost use Rattle.console_rules.specs.Station.{Spoke, report_spoken};

use crate::answers::put_refused;
use station_rules::Station;

// What was heard of a target, as the stream prints it, or the refusal.
pub(crate) fn put_report(line: &[u8], s: &Station, out: &mut [u8]) -> usize
    ensures { Spoke (report_spoken s.now (words_of line.now)) out.old out.new s.now result }
{
    match station::report_on(s, console_plain::number_at(line, 1)) {
        Ok(t) => {
            let first = text::put_bytes(out, 0, b"0 ");
            stream::put_report(out, first, t.ac, t.id)
        }
        Err(refusal) => put_refused(refusal, out),
    }
}
