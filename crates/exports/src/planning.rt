// A plan through C, for the bench: setup and waiting list in, the starts and the MA of the entries out.
ghost use Rattle.std.specs.Prelude.{◌≡◌, replicate};
ghost use Rattle.planner_rules.specs.Plan.{plan, asks_of, in_slots};
ghost use Rattle.exports.specs.Planner.{no_entry, starts_of, numbers_of, rows_of};

use planner_rules::{Ask, Asks, Entry, Request, Setup};

#[repr(C)]
#[derive(Clone, Copy)]
pub struct PlanJob {
    pub setup: Setup,
    pub asks: Asks,
}

// The first placed of the starts, and of the numbers that the requests carry as MA; and how many still wait.
#[repr(C)]
#[derive(Clone, Copy)]
pub struct PlanRows {
    pub placed: usize,
    pub waiting: usize,
    pub starts: [u16; 128],
    pub numbers: [u64; 128],
}

fn no_entry() -> Entry
    ensures { result ≡ no_entry }
{
    let q = Request {
        unit: 0,
        address: 0,
        uf: 0,
        pc: 0,
        rr: 0,
        di: 0,
        sd: 0,
        ma: 0,
    };
    let a = Ask {
        request: q,
        near: 0,
        far: 0,
    };
    planner::entry_at(a, 0)
}

// The starts of the entries. A `for` over the places, here and below: as the array's `map` it copies every entry (docs/LOOK-BACK.md).
fn starts_of(entries: [Entry; 128]) -> [u16; 128]
    ensures { result ≡ starts_of entries }
{
    let mut r = [0u16; 128];
    for i in 0..128 {
        r[i] = entries[i].start;
    }
    r
}

// The MA of the entries.
fn numbers_of(entries: [Entry; 128]) -> [u64; 128]
    ensures { result ≡ numbers_of entries }
{
    let mut r = [0u64; 128];
    for i in 0..128 {
        r[i] = entries[i].ask.request.ma;
    }
    r
}

#[unsafe(no_mangle)]
pub extern "C" fn jerungkal_plan(j: PlanJob) -> PlanRows
    ensures { result ≡ rows_of (in_slots (plan j.setup (asks_of j.asks)) (replicate 128 no_entry) j.asks.list) }
{
    let p = planner::make_plan(j.setup, j.asks, [no_entry(); 128]);
    let starts = starts_of(p.entries);
    let numbers = numbers_of(p.entries);
    PlanRows {
        placed: p.placed,
        waiting: p.waiting,
        starts,
        numbers,
    }
}
