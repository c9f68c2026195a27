// The closeout of the first message.
ghost use Rattle.std.specs.Prelude.{◌≡◌};
ghost use Rattle.model_rules.specs.CommB.{closes_for, closes, closeout};

use crate::lockouts::iis;
use crate::messages::drop_first;
use model_rules::{Holder, Transponder};

// Whether DI and SD close out what an II holds.
fn closes_for(ii: u8, di: u8, sd: u16) -> bool
    ensures { result ≡ closes_for ii di sd }
{
    if di != 1 {
        return false;
    }
    if (sd / 1024) % 4 != 2 {
        return false;
    }
    iis(sd) == ii
}

// Whether a frame closes out, by who holds.
fn closes(pc: u8, di: u8, sd: u16, h: Option<Holder>) -> bool
    ensures { result ≡ closes pc di sd h }
{
    match h {
        None => pc == 4,
        Some(x) => closes_for(x.ii, di, sd),
    }
}

// The first message and the reservation go, where the frame closes out.
pub(crate) fn closeout(pc: u8, di: u8, sd: u16, t: &mut Transponder)
    ensures { t.new ≡ closeout pc di sd t.old }
{
    if closes(pc, di, sd, t.holder) {
        t.holder = None;
        drop_first(&mut t.messages);
    }
}
