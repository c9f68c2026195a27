// The search for the smallest start that fits, which jumps past what is in the way.
ghost use Rattle.std.specs.Prelude.{ℕ, ◌≤◌, ◌<◌};
ghost use Rattle.planner.specs.Promises.{Past, Small, Clearing, ClearingRow, Roomy, Rounded, Placing};

use crate::exchange::Exchange;
use planner_rules::Ask;

// The first start from t on at which the interval from a up to b after it is apart from the one from lo up to hi.
fn past(t: u32, a: u32, b: u32, lo: u32, hi: u32) -> u32
    requires { (t ≤ 200000) × (a ≤ 200000) × (b ≤ 200000) × (hi ≤ 200000) }
    ensures { Past t a b lo hi result }
{
    if t + b <= lo {
        return t;
    }
    if hi <= t + a {
        return t;
    }
    hi - a
}

// For an exchange p with the aircraft of an address: a start from t on up to which none is clear of an exchange that transmits in
// [at, sent) and listens in [from, end), with the aircraft its; and which is t only if t is clear of it.
fn bump(t: u32, p: Exchange, address: u32, at: u32, sent: u32, from: u32, end: u32, its: u32) -> u32
    requires { (t ≤ 200000) × Small p × (sent ≤ 200000) × (end ≤ 200000) }
    ensures { Clearing p address at sent from end its t result }
{
    let t1 = past(t, 0, p.sent, at, sent);
    let t2 = past(t1, 0, p.sent, from, end);
    let t3 = past(t2, p.from, p.to, at, sent);
    let t4 = past(t3, p.from, p.to, from, end);
    if address == its {
        return past(t4, 0, p.to, at, end);
    }
    t4
}

// The same against row i, with a quick answer where one exchange is over before the other starts.
fn nudge(t: u32, p: Exchange, address: u32, i: usize, rows: &[u32; 640]) -> u32
    requires { (t ≤ 200000) × Small p × (i < 128) × Roomy rows.now i }
    ensures { ClearingRow p address rows.now i t result }
{
    let k = i * 5;
    let at = rows[k];
    let end = rows[k + 3];
    if end <= t {
        return t;
    }
    if t + p.to <= at {
        return t;
    }
    bump(
        t,
        p,
        address,
        at,
        rows[k + 1],
        rows[k + 2],
        end,
        rows[k + 4],
    )
}

// One round over the n entries that the rows show, from t on: past each that is in the way, until a move goes past the last start.
fn round(t: u32, last: u32, p: Exchange, address: u32, n: usize, rows: &[u32; 640]) -> u32
    requires { (t ≤ last) × (t ≤ 200000) × Small p × (n ≤ 128) × ((i : ℕ) → i < n → Roomy rows.now i) }
    ensures { Rounded p address rows.now n t result }
{
    let mut start = t;
    for i in 0..n {
        let next = nudge(start, p, address, i, rows);
        // a start that stays is none past the last: the test is for those that move, which are few
        if next == start {
            continue;
        }
        if last < next {
            return next;
        }
        start = next;
    }
    start
}

// The smallest start that fits beside the n entries that the rows show: round after round over them, from where the last one came
// to, until one moves nothing.
pub(crate) fn first_fit(l: u32, a: Ask, n: usize, rows: &[u32; 640]) -> Option<u16>
    requires { (l ≤ 65535) × (n ≤ 128) × ((i : ℕ) → i < n → Roomy rows.now i) }
    ensures { Placing l a n rows.now result }
{
    let p = Exchange::of(a);
    let too_long = l < p.to;
    if too_long {
        return None;
    }
    let last = l - p.to;
    let mut t: u32 = 0;
    while t <= last {
        let next = round(t, last, p, a.request.address, n, rows);
        if next == t {
            return Some(t as u16);
        }
        t = next;
    }
    None
}
