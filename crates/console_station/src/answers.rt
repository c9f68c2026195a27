// The answers without a value, whatever station is left.
ghost use Rattle.refusals.specs.Refusals.{number_of};
ghost use Rattle.station_rules.specs.declared.state.Station.{Station};
ghost use Rattle.station_rules.specs.Answers.{outcome};
ghost use Rattle.console_rules.specs.Station.{Spoke, number_spoken, outcome_spoken};

use refusals::{Refusal, number_given};

// A call's number alone.
fn put_number(n: u8, out: &mut [u8]) -> usize
    ensures { (s : Station) → Spoke (number_spoken n s) out.old out.new s result }
{
    console_plain::put_refusal(out, n as u32)
}

// Why a line is refused.
pub(crate) fn put_refused(refusal: Refusal, out: &mut [u8]) -> usize
    ensures { (s : Station) → Spoke (number_spoken (number_of refusal) s) out.old out.new s result }
{
    put_number(u8::from(refusal), out)
}

// What a call of the station was given.
pub(crate) fn put_outcome(r: Result<(), Refusal>, out: &mut [u8]) -> usize
    ensures { (s : Station) → Spoke (outcome_spoken (outcome r s)) out.old out.new s result }
{
    put_number(number_given(&r), out)
}
