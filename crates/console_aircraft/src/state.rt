// The transponder where there is no aircraft.
ghost use Rattle.std.specs.Prelude.{◌≡◌};
ghost use Rattle.model_rules.specs.Calls.{newborn};

use model_rules::{Messages, Timers, Transponder};

// One of zeros, which is of no use.
pub(crate) fn of_zeros() -> Transponder
    ensures { result ≡ newborn 0 0 0 0 0 }
{
    Transponder {
        address: 0,
        ac: 0,
        id: 0,
        fs: 0,
        ca: 0,
        time: 0,
        timers: Timers { list: [None; 79] },
        holder: None,
        messages: Messages { list: [0; 8], n: 0 },
    }
}
