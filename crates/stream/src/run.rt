// The run of a stream, one record after the other.
ghost use Rattle.std.specs.Prelude.{◌≡◌};
ghost use Rattle.stream_rules.specs.Run.{begun, is_full};
ghost use Rattle.stream.specs.Calls.{Advanced};

use crate::step::put_step;
use crate::words::put_nothing;
use stream_rules::Run;

// The bytes of the buffer in which lines are held back, and the most that the lines of one record have.
pub const ROOM: usize = 10240;

const LONGEST: usize = 9252;

// Before the first record.
pub fn begin() -> Run
    ensures { result ≡ begun }
{
    Run {
        station: station::before_setup(),
        at: 0,
        n: 1,
        more: true,
    }
}

// One record more: its lines stand at the place at of out. A run that has ended stays as it is.
pub fn advance(s: &[u8], run: &mut Run, out: &mut [u8; ROOM], at: usize) -> usize
    ensures { Advanced s.now run.old at out.old out.new run.new result }
{
    if !run.more {
        return put_nothing(out, at);
    }
    put_step(s, run, out, at)
}

// Whether the lines of one record more might not fit behind those that are held.
pub fn is_full(held: usize) -> bool
    ensures { result ≡ is_full held }
{
    ROOM - LONGEST <= held
}
