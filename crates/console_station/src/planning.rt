// The line `plan TAG`.
ghost use Rattle.text_rules.specs.Line.{words_of};
ghost use Rattle.console_rules.specs.Station.{Spoke, plan_spoken};

use station_rules::Station;

// A new plan, and below the 0 a line for each of its entries, as the stream prints them.
pub(crate) fn put_plan(line: &[u8], s: &mut Station, out: &mut [u8]) -> usize
    ensures { Spoke (plan_spoken s.old (words_of line.now)) out.old out.new s.new result }
{
    station::plan_period(s, console_plain::number_at(line, 1));
    let first = text::put_bytes(out, 0, b"0\n");
    stream::put_entries(out, first, &s.plan.list, s.plan.n)
}
