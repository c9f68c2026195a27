// The lines `target ADDRESS NEAR FAR`, `move ADDRESS NEAR FAR` and `remove ADDRESS`.
ghost use Rattle.text_rules.specs.Line.{words_of};
ghost use Rattle.console_rules.specs.Station.{Spoke, target_spoken, move_spoken, remove_spoken};

use crate::answers::{put_outcome, put_refused};
use crate::held::edges_in;
use console_plain::number_at;
use refusals::Refusal;
use station_rules::Station;

// Adds a target.
pub(crate) fn put_target(line: &[u8], s: &mut Station, out: &mut [u8]) -> usize
    ensures { Spoke (target_spoken s.old (words_of line.now)) out.old out.new s.new result }
{
    match edges_in(line) {
        Some((near, far)) => put_outcome(
            station::add_target(s, number_at(line, 1), near, far),
            out,
        ),
        None => put_refused(Refusal::Range, out),
    }
}

// Moves a target.
pub(crate) fn put_move(line: &[u8], s: &mut Station, out: &mut [u8]) -> usize
    ensures { Spoke (move_spoken s.old (words_of line.now)) out.old out.new s.new result }
{
    match edges_in(line) {
        Some((near, far)) => put_outcome(
            station::move_target(s, number_at(line, 1), near, far),
            out,
        ),
        None => put_refused(Refusal::Range, out),
    }
}

// Removes a target.
pub(crate) fn put_remove(line: &[u8], s: &mut Station, out: &mut [u8]) -> usize
    ensures { Spoke (remove_spoken s.old (words_of line.now)) out.old out.new s.new result }
{
    put_outcome(station::remove_target(s, number_at(line, 1)), out)
}
