// A transponder is made.
ghost use Rattle.std.specs.Prelude.{◌≡◌, ◌<◌};
ghost use Rattle.model_rules.specs.Calls.{make_ranged, newborn, making};
ghost use Rattle.model_rules.specs.Said.{made_as};

use model_rules::{Messages, Timers, Transponder};
use refusals::Refusal;

// Whether the numbers of a transponder are in their ranges.
fn make_ranged(address: u32, ac: u32, id: u32, fs: u32, ca: u32) -> bool
    ensures { result ≡ make_ranged address ac id fs ca }
{
    if address == 0 {
        return false;
    }
    if 16_777_214 < address {
        return false;
    }
    if 8191 < ac {
        return false;
    }
    if 8191 < id {
        return false;
    }
    if 7 < fs {
        return false;
    }
    ca <= 7
}

// A transponder at time 0: nothing commanded, nobody holds, nothing waits.
fn newborn(address: u32, ac: u16, id: u16, fs: u8, ca: u8) -> Transponder
    ensures { result ≡ newborn address ac id fs ca }
{
    Transponder {
        address,
        ac,
        id,
        fs,
        ca,
        time: 0,
        timers: Timers { list: [None; 79] },
        holder: None,
        messages: Messages { list: [0; 8], n: 0 },
    }
}

// Makes a transponder.
pub fn make(address: u32, ac: u32, id: u32, fs: u32, ca: u32) -> Result<Transponder, Refusal>
    ensures { made_as result ≡ making address ac id fs ca }
{
    if !make_ranged(address, ac, id, fs, ca) {
        return Err(Refusal::Range);
    }
    Ok(newborn(address, ac as u16, id as u16, fs as u8, ca as u8))
}
