// What a record of each kind does: the station that is lent, and its lines at a place of the buffer.
ghost use Rattle.station_rules.specs.Calls.{set_up, new_target, removed, moved, requested, reported};
ghost use Rattle.station_rules.specs.Planning.{next_plan};
ghost use Rattle.reader_rules.specs.Fields.{setup_at, edges_at, address_at, request_at, tag_at};
ghost use Rattle.stream_rules.specs.Step.{answered, planned_to, reported_to, obeyed};
ghost use Rattle.stream.specs.Calls.{Did};

use crate::answers::put_answer;
use crate::entries::put_entries;
use crate::replies::obey_reply;
use crate::report::put_report;
use refusals::{Refusal, number_given};
use station_rules::Station;

fn obey_setup(s: &[u8], b: usize, n: u32, st: &mut Station, out: &mut [u8], at: usize) -> usize
    ensures { Did (answered n 1 (set_up st.old (setup_at s.now b))) at out.old out.new st.new result }
{
    let r = station::set_up(st, reader::setup_at(s, b));
    put_answer(out, at, n, 1, number_given(&r))
}

fn obey_new_target(s: &[u8], b: usize, n: u32, st: &mut Station, out: &mut [u8], at: usize) -> usize
    ensures { Did (answered n 2
        (new_target st.old (edges_at s.now b).address (edges_at s.now b).near (edges_at s.now b).far))
        at out.old out.new st.new result }
{
    let e = reader::edges_at(s, b);
    let r = station::add_target(st, e.address, e.near, e.far);
    put_answer(out, at, n, 2, number_given(&r))
}

fn obey_remove(s: &[u8], b: usize, n: u32, st: &mut Station, out: &mut [u8], at: usize) -> usize
    ensures { Did (answered n 3 (removed st.old (address_at s.now b))) at out.old out.new st.new result }
{
    let r = station::remove_target(st, reader::address_at(s, b));
    put_answer(out, at, n, 3, number_given(&r))
}

fn obey_request(s: &[u8], b: usize, n: u32, st: &mut Station, out: &mut [u8], at: usize) -> usize
    ensures { Did (answered n 4 (requested st.old (request_at s.now b))) at out.old out.new st.new result }
{
    let r = station::take_request(st, reader::request_at(s, b));
    put_answer(out, at, n, 4, number_given(&r))
}

// A plan adds a line for each entry.
fn obey_plan(s: &[u8], b: usize, n: u32, st: &mut Station, out: &mut [u8], at: usize) -> usize
    ensures { Did (planned_to n (next_plan st.old (tag_at s.now b))) at out.old out.new st.new result }
{
    station::plan_period(st, reader::tag_at(s, b));
    let first = put_answer(out, at, n, 5, 0);
    put_entries(out, first, &st.plan.list, st.plan.n)
}

// A taken report adds a line.
fn obey_report(s: &[u8], b: usize, n: u32, st: &Station, out: &mut [u8], at: usize) -> usize
    ensures { Did (reported_to n st.now (reported st.now (address_at s.now b))) at out.old out.new st.now result }
{
    let r = station::report_on(st, reader::address_at(s, b));
    let first = put_answer(out, at, n, 8, number_given(&r));
    match r {
        Ok(t) => put_report(out, first, t.ac, t.id),
        Err(_) => first,
    }
}

fn obey_move(s: &[u8], b: usize, n: u32, st: &mut Station, out: &mut [u8], at: usize) -> usize
    ensures { Did (answered n 9
        (moved st.old (edges_at s.now b).address (edges_at s.now b).near (edges_at s.now b).far))
        at out.old out.new st.new result }
{
    let e = reader::edges_at(s, b);
    let r = station::move_target(st, e.address, e.near, e.far);
    put_answer(out, at, n, 9, number_given(&r))
}

// A record of any kind, with its body at the place b.
pub(crate) fn obey(
    s: &[u8],
    kind: u8,
    b: usize,
    n: u32,
    st: &mut Station,
    out: &mut [u8],
    at: usize,
) -> usize
    ensures { Did (obeyed s.now n kind b st.old) at out.old out.new st.new result }
{
    match kind {
        1 => obey_setup(s, b, n, st, out, at),
        2 => obey_new_target(s, b, n, st, out, at),
        3 => obey_remove(s, b, n, st, out, at),
        4 => obey_request(s, b, n, st, out, at),
        5 => obey_plan(s, b, n, st, out, at),
        6 | 7 => obey_reply(s, kind, b, n, st, out, at),
        8 => obey_report(s, b, n, st, out, at),
        9 => obey_move(s, b, n, st, out, at),
        _ => put_answer(out, at, n, kind, u8::from(Refusal::Unknown)),
    }
}
