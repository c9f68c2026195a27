// The target list: finding, adding, dropping, replacing and reading a target, and whether there is room.
ghost use Rattle.std.specs.Prelude.{◌≡◌, ◌<◌, true, length, position};
ghost use Rattle.station_rules.specs.State.{targets_of, is_at, in_list, fresh, target_at, targets_with, targets_without, targets_put};
ghost use Rattle.station_rules.specs.Calls.{targets_full};

use numbers::live;
use station_rules::{Target, Targets};

// A target of which nothing was heard.
pub(crate) fn fresh(address: u32, near: u16, far: u16) -> Target
    ensures { result ≡ fresh address near far }
{
    Target {
        address,
        near,
        far,
        ac: None,
        id: None,
    }
}

// The targets held, in their order.
pub(crate) fn held(t: &Targets) -> &[Target]
    ensures value { result.now ≡ targets_of t.now }
    ensures slots { length t.now.list ≡ 64 }
{
    &t.list[..live(t.n, t.list[..].len())]
}

// The place of the first target of the address.
fn find(t: &Targets, address: u32) -> Option<usize>
    ensures { result ≡ position (is_at address) (targets_of t.now) }
{
    held(t).iter().position(|x| x.address == address)
}

// Whether the address is in the target list.
pub(crate) fn in_list(t: &Targets, address: u32) -> bool
    ensures { result ≡ in_list address t.now }
{
    find(t, address).is_some()
}

// Whether 64 targets are held.
pub(crate) fn is_full(t: &Targets) -> bool
    ensures { result ≡ targets_full t.now }
{
    64 <= held(t).len()
}

// The target of the address, or one at the station where there is none.
pub(crate) fn target_at(t: &Targets, address: u32) -> Target
    ensures { result ≡ target_at address t.now }
{
    match find(t, address) {
        Some(i) => held(t)[i],
        None => fresh(0, 0, 0),
    }
}

// One target more, at the end.
pub(crate) fn push(t: &mut Targets, x: Target)
    requires { length (targets_of t.old) < 64 }
    ensures { t.new ≡ targets_with x t.old }
{
    let n = held(t).len();
    t.list[n] = x;
    t.n = n + 1;
}

// The targets of every other address, in their order.
pub(crate) fn drop_all(t: &mut Targets, address: u32)
    ensures { t.new ≡ targets_without address t.old }
{
    let n = held(t).len();
    let mut k = 0;
    for i in 0..n {
        let x = t.list[i];
        if x.address != address {
            t.list[k] = x;
            k += 1;
        }
    }
    t.n = k;
}

// Another target in the place of the address's.
pub(crate) fn put(t: &mut Targets, address: u32, x: Target)
    requires { in_list address t.old ≡ true }
    ensures { t.new ≡ targets_put address x t.old }
{
    if let Some(i) = find(t, address) {
        let n = held(t).len();
        t.list[i] = x;
        t.n = n;
    }
}
