// The waiting list: one request more, those of an address dropped, and whether a unit has room.
ghost use Rattle.std.specs.Prelude.{◌≡◌, ◌<◌, length};
ghost use Rattle.lists.specs.Lists.{count_of};
ghost use Rattle.station_rules.specs.State.{requests_of, is_of, waiting_with, waiting_without, no_request};
ghost use Rattle.station_rules.specs.Calls.{unit_full};

use numbers::live;
use planner_rules::Request;
use station_rules::Waiting;

// A slot that holds no request.
pub(crate) fn no_request() -> Request
    ensures { result ≡ no_request }
{
    Request {
        unit: 0,
        address: 0,
        uf: 0,
        pc: 0,
        rr: 0,
        di: 0,
        sd: 0,
        ma: 0,
    }
}

// The requests that wait, the oldest first.
pub(crate) fn requests(w: &Waiting) -> &[Request]
    ensures value { result.now ≡ requests_of w.now }
    ensures slots { length w.now.list ≡ 128 }
{
    &w.list[..live(w.n, w.list[..].len())]
}

// How many requests of the unit wait.
fn count_of(w: &Waiting, unit: u8) -> usize
    ensures { result ≡ count_of (is_of unit) (requests_of w.now) }
{
    requests(w).iter().filter(|q| q.unit == unit).count()
}

// Whether 16 requests of the unit wait, or no slot is left.
pub(crate) fn unit_full(w: &Waiting, unit: u8) -> bool
    ensures { result ≡ unit_full unit w.now }
{
    16 <= count_of(w, unit) || 128 <= requests(w).len()
}

// One request more, as the youngest.
pub(crate) fn push(w: &mut Waiting, q: Request)
    requires { length (requests_of w.old) < 128 }
    ensures { w.new ≡ waiting_with q w.old }
{
    let n = requests(w).len();
    w.list[n] = q;
    w.n = n + 1;
}

// The requests for every other address, in their order.
pub(crate) fn drop_all(w: &mut Waiting, address: u32)
    ensures { w.new ≡ waiting_without address w.old }
{
    let n = requests(w).len();
    let mut k = 0;
    for i in 0..n {
        let q = w.list[i];
        if q.address != address {
            w.list[k] = q;
            k += 1;
        }
    }
    w.n = k;
}
