// The entries of the plan in force: how many, each by its number, answered, or withdrawn.
ghost use Rattle.std.specs.Prelude.{◌≡◌, ◌<◌, length, slice_index_or};
ghost use Rattle.station_rules.specs.State.{entries_of, no_ask, no_entry, withdrawn, plan_withdrawn};
ghost use Rattle.station_rules.specs.Replies.{is_open, plan_answered};

use crate::waiting::no_request;
use numbers::live;
use planner_rules::{Ask, Entry, Status};
use station_rules::Plan;

// A slot that holds no request with its edges.
pub(crate) fn no_ask() -> Ask
    ensures { result ≡ no_ask }
{
    Ask {
        request: no_request(),
        near: 0,
        far: 0,
    }
}

// A slot that holds no entry.
pub(crate) fn no_entry() -> Entry
    ensures { result ≡ no_entry }
{
    Entry {
        ask: no_ask(),
        start: 0,
        status: Status::Open,
    }
}

// The entries of the plan, by their numbers.
fn entries(p: &Plan) -> &[Entry]
    ensures value { result.now ≡ entries_of p.now }
    ensures slots { length p.now.list ≡ 128 }
{
    &p.list[..live(p.n, p.list[..].len())]
}

// How many entries the plan has.
pub fn entry_count(p: &Plan) -> usize
    ensures { result ≡ length (entries_of p.now) }
{
    entries(p).len()
}

// The entry of a number; an empty one where the plan has none, which no caller asks for.
pub(crate) fn entry_of(p: &Plan, k: usize) -> Entry
    ensures { result ≡ slice_index_or (entries_of p.now) k no_entry }
{
    match entries(p).get(k) {
        Some(e) => *e,
        None => no_entry(),
    }
}

// Whether an entry with this status still waits for its reply.
pub(crate) fn is_open(status: Status) -> bool
    ensures { result ≡ is_open status }
{
    matches!(status, Status::Open)
}

// The entry of a number is answered.
pub(crate) fn answer(p: &mut Plan, k: usize)
    requires { k < length (entries_of p.old) }
    ensures { p.new ≡ plan_answered k p.old }
{
    p.n = entries(p).len();
    p.list[k].status = Status::Answered;
}

// An open entry of the address is withdrawn.
fn withdraw(e: &mut Entry, address: u32)
    ensures { e.new ≡ withdrawn address e.old }
{
    if e.ask.request.address == address && is_open(e.status) {
        e.status = Status::Withdrawn;
    }
}

// The open entries of the address are withdrawn.
pub(crate) fn withdraw_all(p: &mut Plan, address: u32)
    ensures { p.new ≡ plan_withdrawn address p.old }
{
    let n = entries(p).len();
    for e in p.list[..n].iter_mut() {
        withdraw(e, address);
    }
    p.n = n;
}
