// The lines of the station, each by its own function.
ghost use Rattle.text_rules.specs.Line.{words_of};
ghost use Rattle.console_rules.specs.Station.{Spoke, station_spoken};

use crate::entries::put_entries;
use crate::listing::put_targets;
use crate::planning::put_plan;
use crate::replying::put_reply;
use crate::reporting::put_report;
use crate::requests::put_request;
use crate::setting::put_setup;
use crate::targets::{put_move, put_remove, put_target};
use console_rules::StationLine;
use station_rules::Station;

// What a line says; the station is the one that it leaves.
pub fn put_station(l: StationLine, line: &[u8], s: &mut Station, out: &mut [u8]) -> usize
    ensures { Spoke (station_spoken l s.old (words_of line.now)) out.old out.new s.new result }
{
    match l {
        StationLine::Setup => put_setup(line, s, out),
        StationLine::Target => put_target(line, s, out),
        StationLine::Remove => put_remove(line, s, out),
        StationLine::Move => put_move(line, s, out),
        StationLine::Request => put_request(line, s, out),
        StationLine::Plan => put_plan(line, s, out),
        StationLine::Reply => put_reply(line, s, out),
        StationLine::Report => put_report(line, s, out),
        StationLine::Targets => put_targets(s, out),
        StationLine::Entries => put_entries(s, out),
    }
}
