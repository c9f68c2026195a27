// The lockout commands of a frame.
ghost use Rattle.std.specs.Prelude.{◌≡◌, ◌<◌};
ghost use Rattle.model_rules.specs.Lockout.{iis, started_by_los, started_by_lss, command_of_pc, command_of_sd, lockout};

use crate::timers::start;
use frames::Interrogator;
use model_rules::Transponder;

// The II in bits 17 to 20.
pub(crate) fn iis(sd: u16) -> u8
    ensures { (result ≡ iis sd) × (result < 16) }
{
    ((sd / 4096) % 16) as u8
}

// The code that PC starts.
fn command_of_pc(pc: u8) -> Option<Interrogator>
    ensures { result ≡ command_of_pc pc }
{
    if pc == 1 {
        return Some(Interrogator::II(0));
    }
    None
}

// The II that LOS starts.
fn ii_started(sd: u16) -> Option<Interrogator>
    ensures { result ≡ started_by_los sd }
{
    if (sd / 64) % 2 == 1 {
        return Some(Interrogator::II(iis(sd)));
    }
    None
}

// The SI that LSS starts; SI 0 starts none.
fn si_started(sd: u16) -> Option<Interrogator>
    ensures { result ≡ started_by_lss sd }
{
    if (sd / 512) % 2 != 1 {
        return None;
    }
    let si = (sd / 1024) % 64;
    if si == 0 {
        return None;
    }
    Some(Interrogator::SI(si as u8))
}

// The code that DI and SD start.
fn command_of_sd(di: u8, sd: u16) -> Option<Interrogator>
    ensures { result ≡ command_of_sd di sd }
{
    if di == 3 {
        return si_started(sd);
    }
    if di == 1 {
        return ii_started(sd);
    }
    if di == 7 {
        return ii_started(sd);
    }
    None
}

// A frame's commands start their timers.
pub(crate) fn lockout(pc: u8, di: u8, sd: u16, t: &mut Transponder)
    ensures { t.new ≡ lockout pc di sd t.old }
{
    start(&mut t.timers, command_of_pc(pc), t.time);
    start(&mut t.timers, command_of_sd(di, sd), t.time);
}
