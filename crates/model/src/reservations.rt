// The reservation of the first message.
ghost use Rattle.std.specs.Prelude.{◌≡◌};
ghost use Rattle.model_rules.specs.CommB.{asks_to_hold, nobody_else, reserve};

use crate::lockouts::iis;
use crate::messages::waits;
use model_rules::{Holder, Transponder};

// Whether DI and SD ask for the reservation.
fn asks_to_hold(di: u8, sd: u16) -> bool
    ensures { result ≡ asks_to_hold di sd }
{
    if di != 1 {
        return false;
    }
    if (sd / 1024) % 4 != 1 {
        return false;
    }
    1 <= iis(sd)
}

// Whether nobody else than an II holds it.
fn nobody_else(ii: u8, h: Option<Holder>) -> bool
    ensures { result ≡ nobody_else ii h }
{
    h.is_none_or(|x| x.ii == ii)
}

// The reservation, or its restart, where it is asked for and may be had.
pub(crate) fn reserve(di: u8, sd: u16, t: &mut Transponder)
    ensures { t.new ≡ reserve di sd t.old }
{
    let ii = iis(sd);
    if asks_to_hold(di, sd) && waits(&t.messages) && nobody_else(ii, t.holder) {
        t.holder = Some(Holder { ii, since: t.time });
    }
}
