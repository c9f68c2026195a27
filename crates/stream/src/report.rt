// The line of a report: what was heard of a target, and how many plans ago.
ghost use Rattle.std.specs.Prelude.{[], ◌∷◌, ◌++◌};
ghost use Rattle.stream_rules.specs.Lines.{followed, value_word, age_word, report_line};
ghost use Rattle.stream.specs.Calls.{Within};

use crate::words::{NEWLINE, SPACE, put_number};
use station_rules::Heard;

// A dash, and the byte behind it.
fn put_dash(out: &mut [u8], at: usize, behind: u8) -> usize
    ensures { Within 12 (followed (45 ∷ []) behind) at out.old out.new result }
{
    let end = text::put_byte(out, at, 45);
    text::put_byte(out, end, behind)
}

// AC or ID and its age, or a dash for each, and the byte behind them.
fn put_value(out: &mut [u8], at: usize, v: Option<Heard>, behind: u8) -> usize
    ensures { Within 24 (followed (value_word v) 32 ++ followed (age_word v) behind) at out.old out.new result }
{
    match v {
        None => {
            let at_age = put_dash(out, at, SPACE);
            put_dash(out, at_age, behind)
        }
        Some(h) => {
            let at_age = put_number(out, at, h.value as u32, SPACE);
            put_number(out, at_age, h.age as u32, behind)
        }
    }
}

// AC, its age, ID, its age.
pub fn put_report(out: &mut [u8], at: usize, ac: Option<Heard>, id: Option<Heard>) -> usize
    ensures { Within 48 (report_line ac id) at out.old out.new result }
{
    let at_id = put_value(out, at, ac, SPACE);
    put_value(out, at_id, id, NEWLINE)
}
