// The plan of a period: two phases over the waiting list.
ghost use Rattle.std.specs.Prelude.{◌≡◌, ◌+◌, ◌≤◌, ◌<◌, length, take, set};
ghost use Rattle.planner_rules.specs.Exchange.{entry_at, listens};
ghost use Rattle.planner_rules.specs.Shares.{share};
ghost use Rattle.lists.specs.Lists.{over};
ghost use Rattle.planner_rules.specs.Plan.{alone, plan, placed_in, asks_of, in_slots};
ghost use Rattle.planner.specs.Promises.{Tallied, noted, Shown, PassedOver, Laid};

use crate::entry::entry_at;
use crate::exchange::Exchange;
use crate::search::first_fit;
use crate::shares::share;
use numbers::{live, wide};
use planner_rules::{Ask, Asks, Entry, Planned, Setup};

// The limits in the turn of one unit: its own share, and nothing for the others.
fn alone_in(u: usize, shares: [u8; 8]) -> [u8; 8]
    requires { u < 8 }
    ensures { result ≡ alone u shares }
{
    let mut r = [0u8; 8];
    r[u] = shares[u];
    r
}

// One more for a unit; a unit above 7 is not counted.
fn one_more(counts: &mut [u8; 8], unit: u8)
    requires { (length counts.old ≡ 8) × (share counts.old unit < 255) }
    ensures { counts.new ≡ set counts.old unit (share counts.old unit + 1) }
{
    if 8 <= unit {
        return;
    }
    counts[unit as usize] += 1;
}

// Writes row i, the five numbers that the search reads of a request placed at a start.
fn note(rows: &mut [u32; 640], i: usize, a: Ask, start: u16)
    requires { (i < 128) × (length rows.old ≡ 640) }
    ensures { (rows.new ≡ noted (entry_at a start) i rows.old) × ((listens (entry_at a start)).hi ≤ 200000) }
{
    let q = Exchange::of(a);
    let at = wide(start);
    let k = i * 5;
    rows[k] = at;
    rows[k + 1] = at + q.sent;
    rows[k + 2] = at + q.from;
    rows[k + 3] = at + q.to;
    rows[k + 4] = a.request.address;
}

// One pass over what waits, oldest first, with a limit for each unit. What still waits moves up in its own slots; the rows show the
// entries, and the counts say how many each unit has.
fn pass_over(
    l: u32,
    limits: [u8; 8],
    rows: &mut [u32; 640],
    counts: &mut [u8; 8],
    b: Planned,
) -> Planned
    requires { (l ≤ 65535) × (b.placed + b.waiting ≤ 128) × Shown rows.old b.placed b.entries × Tallied counts.old (placed_in b) }
    ensures { PassedOver l limits b result rows.new counts.new }
{
    let mut placed = b.placed;
    let mut entries = b.entries;
    let mut waiting: usize = 0;
    let mut asks = b.asks;
    for i in 0..b.waiting {
        let a = asks[i];
        if share(limits, a.request.unit) <= share(*counts, a.request.unit) {
            asks[waiting] = a;
            waiting += 1;
            continue;
        }
        match first_fit(l, a, placed, rows) {
            Some(t) => {
                entries[placed] = entry_at(a, t);
                note(rows, placed, a, t);
                one_more(counts, a.request.unit);
                placed += 1;
            }
            None => {
                asks[waiting] = a;
                waiting += 1;
            }
        }
    }
    Planned {
        placed,
        entries,
        waiting,
        asks,
    }
}

// The first n asks over the slots of base.
fn over_slots(base: [Ask; 128], n: usize, asks: [Ask; 128]) -> [Ask; 128]
    requires { n ≤ 128 }
    ensures { result ≡ over (take n asks) base }
{
    let mut out = base;
    out[..n].copy_from_slice(&asks[..n]);
    out
}

// The passes: units 0 to 7 in turn up to their guarantees, then all the rest up to the ceilings.
fn make_passes(s: Setup, n: usize, asks: [Ask; 128], old: [Entry; 128]) -> Planned
    requires { n ≤ 128 }
    ensures { Laid (plan s (take n asks)) old result }
{
    let l = wide(s.period);
    let mut rows = [0u32; 640];
    let mut counts = [0u8; 8];
    let mut r = Planned {
        placed: 0,
        entries: old,
        waiting: n,
        asks,
    };
    for u in 0..8 {
        r = pass_over(l, alone_in(u, s.guarantee), &mut rows, &mut counts, r);
    }
    pass_over(l, s.ceiling, &mut rows, &mut counts, r)
}

// The plan. It is written over the slots of the old one, and what still waits over those of the waiting list. With nothing waiting
// there is nothing to place.
pub fn make_plan(s: Setup, w: Asks, old: [Entry; 128]) -> Planned
    ensures { result ≡ in_slots (plan s (asks_of w)) old w.list }
{
    let n = live(w.n, 128);
    let list = w.list;
    if n == 0 {
        return Planned {
            placed: 0,
            entries: old,
            waiting: 0,
            asks: list,
        };
    }
    let r = make_passes(s, n, list, old);
    let asks = over_slots(list, r.waiting, r.asks);
    Planned { asks, ..r }
}
