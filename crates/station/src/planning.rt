// A plan: the waiting requests joined with their targets' edges, the planner asked, and the station afterwards.
ghost use Rattle.std.specs.Prelude.{◌≡◌, map, take};
ghost use Rattle.station_rules.specs.State.{requests_of, waiting_as};
ghost use Rattle.station_rules.specs.Planning.{ask_for, request_of, asks_as, next_plan};

use crate::ages::all_older;
use crate::entries::no_ask;
use crate::targets::target_at;
use crate::waiting::requests;
use numbers::live;
use planner_rules::{Ask, Asks, Request};
use station_rules::{Plan, Station, Targets, Waiting};

// A request with near and far of its target as they are now.
fn ask_for(t: &Targets, q: Request) -> Ask
    ensures { result ≡ ask_for t.now q }
{
    let x = target_at(t, q.address);
    Ask {
        request: q,
        near: x.near,
        far: x.far,
    }
}

// What the planner is asked: all that waits, the oldest first.
fn join(t: &Targets, w: &Waiting) -> Asks
    ensures { result ≡ asks_as (map (ask_for t.now) (requests_of w.now)) }
{
    let n = requests(w).len();
    let mut list = [no_ask(); 128];
    for i in 0..n {
        list[i] = ask_for(t, w.list[i]);
    }
    Asks { list, n }
}

// The requests of the first m of the asks are what waits.
fn put_back(w: &mut Waiting, m: usize, asks: [Ask; 128])
    ensures { w.new ≡ waiting_as (map request_of (take m asks)) w.old }
{
    let n = live(m, 128);
    for i in 0..n {
        w.list[i] = asks[i].request;
    }
    w.n = n;
}

// A new plan replaces the old one; placed requests leave the waiting list, and every age present is one more.
pub fn plan_period(s: &mut Station, tag: u32)
    ensures { s.new ≡ next_plan s.old tag }
{
    let old = s.plan.list;
    let b = planner::make_plan(s.setup, join(&s.targets, &s.waiting), old);
    let list = b.entries;
    s.plan = Plan {
        list,
        n: b.placed,
        tag,
    };
    put_back(&mut s.waiting, b.waiting, b.asks);
    all_older(&mut s.targets);
}
