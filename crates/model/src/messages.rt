// The messages that wait: how many, the first, one more, one less; and the call that queues one.
ghost use Rattle.std.specs.Prelude.{◌≡◌, ◌<◌, ◌≤◌, length};
ghost use Rattle.model_rules.specs.State.{waiting, waits, first_of, messages_with, messages_after};
ghost use Rattle.model_rules.specs.Calls.{queuing};
ghost use Rattle.model_rules.specs.Said.{queued_as};

use model_rules::{Messages, Transponder};
use refusals::Refusal;

// How many messages wait: the count, or all slots where the count is too large.
pub fn count(m: &Messages) -> usize
    ensures { (result ≡ length (waiting m.now)) × (result ≤ 8) }
{
    m.n.min(8)
}

// Whether a message waits.
pub(crate) fn waits(m: &Messages) -> bool
    ensures { result ≡ waits m.now }
{
    count(m) != 0
}

// The first message; zero if none waits.
pub(crate) fn first_of(m: &Messages) -> u64
    ensures { result ≡ first_of m.now }
{
    if waits(m) { m.list[0] } else { 0 }
}

// One message more.
fn push(m: &mut Messages, v: u64)
    requires { length (waiting m.old) < 8 }
    ensures { m.new ≡ messages_with v m.old }
{
    let n = count(m);
    m.list[n] = v;
    m.n = n + 1;
}

// The messages without the first.
pub(crate) fn drop_first(m: &mut Messages)
    ensures { m.new ≡ messages_after m.old }
{
    if waits(m) {
        m.n = count(m) - 1;
        m.list[0] = 0;
        m.list.rotate_left(1);
    }
}

// Queues a message.
pub fn queue(t: &mut Transponder, message: &[u8]) -> Result<(), Refusal>
    ensures { queued_as result t.new ≡ queuing t.old message.now }
{
    if message.len() != 7 {
        return Err(Refusal::Length);
    }
    if 8 <= count(&t.messages) {
        return Err(Refusal::Full);
    }
    push(&mut t.messages, frames::number_of(message));
    Ok(())
}
