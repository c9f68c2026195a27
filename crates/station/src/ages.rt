// Ages: each plan adds 1 to those present, up to 65,535.
ghost use Rattle.std.specs.Prelude.{◌≡◌};
ghost use Rattle.station_rules.specs.State.{age_after, value_after, older, targets_older};

use crate::targets::held;
use station_rules::{Heard, Target, Targets};

// An age after one plan more.
fn age_after(age: u16) -> u16
    ensures { result ≡ age_after age }
{
    if age < 65535 {
        return age + 1;
    }
    age
}

// A value after one plan more; one never heard has no age.
fn value_after(v: Option<Heard>) -> Option<Heard>
    ensures { result ≡ value_after v }
{
    match v {
        None => None,
        Some(h) => Some(Heard {
            value: h.value,
            age: age_after(h.age),
        }),
    }
}

// A target after one plan more.
fn older(x: &mut Target)
    ensures { x.new ≡ older x.old }
{
    x.ac = value_after(x.ac);
    x.id = value_after(x.id);
}

// The targets after one plan more.
pub(crate) fn all_older(t: &mut Targets)
    ensures { t.new ≡ targets_older t.old }
{
    let n = held(t).len();
    for x in t.list[..n].iter_mut() {
        older(x);
    }
    t.n = n;
}
