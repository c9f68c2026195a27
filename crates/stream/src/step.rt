// One step: what stands at the run's place of the stream, done and printed.
ghost use Rattle.stream.specs.Calls.{Stepped};

use crate::answers::put_answer;
use crate::obey::obey;
use crate::words::put_nothing;
use reader_rules::Found;
use refusals::Refusal;
use stream_rules::Run;

// What stands at the run's place: its lines go to the place at of out. The run goes on behind a whole record, and ends at anything else.
pub(crate) fn put_step(s: &[u8], run: &mut Run, out: &mut [u8], at: usize) -> usize
    ensures { Stepped s.now run.old at out.old out.new run.new result }
{
    let n = run.n;
    run.n = std::num::wrapping_add_u32(n, 1);
    match reader::found_at(s, run.at) {
        Found::End => {
            run.more = false;
            put_nothing(out, at)
        }
        Found::Unknown(kind) => {
            run.more = false;
            put_answer(out, at, n, kind, u8::from(Refusal::Unknown))
        }
        Found::Cut(kind) => {
            run.more = false;
            put_answer(out, at, n, kind, u8::from(Refusal::Cut))
        }
        Found::Whole { kind, body, next } => {
            run.at = next;
            run.more = true;
            obey(s, kind, body, n, &mut run.station, out, at)
        }
    }
}
