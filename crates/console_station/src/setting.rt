// The line `setup L R LIMIT G0 .. G7 C0 .. C7`.
ghost use Rattle.text_rules.specs.Line.{words_of};
ghost use Rattle.console_rules.specs.Station.{Spoke, setup_spoken};

use crate::answers::{put_outcome, put_refused};
use crate::held::setup_in;
use refusals::Refusal;
use station_rules::Station;

// Sets the station up.
pub(crate) fn put_setup(line: &[u8], s: &mut Station, out: &mut [u8]) -> usize
    ensures { Spoke (setup_spoken s.old (words_of line.now)) out.old out.new s.new result }
{
    match setup_in(line) {
        Some(setup) => put_outcome(station::set_up(s, setup), out),
        None => put_refused(Refusal::Range, out),
    }
}
