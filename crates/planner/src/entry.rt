// A plan's entry, as the pass makes it.
ghost use Rattle.std.specs.Prelude.{◌≡◌};
ghost use Rattle.planner_rules.specs.Exchange.{entry_at};

use planner_rules::{Ask, Entry, Status};

// A request placed at a start, and open.
pub fn entry_at(a: Ask, start: u16) -> Entry
    ensures { result ≡ entry_at a start }
{
    Entry {
        ask: a,
        start,
        status: Status::Open,
    }
}
