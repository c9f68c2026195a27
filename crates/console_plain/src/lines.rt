// The lines without a state, each by its own function.
ghost use Rattle.text_rules.specs.Line.{words_of};
ghost use Rattle.console_rules.specs.Texts.{Brief};
ghost use Rattle.console_rules.specs.PlainLines.{plain_text};

use crate::building::{put_all_call_frame, put_build};
use crate::code::put_code;
use crate::correction::put_correct;
use crate::explaining::put_explain;
use crate::feet::{put_ac, put_feet};
use crate::help::put_help;
use crate::reading::{put_down, put_up};
use crate::reckoning::{put_overlay, put_remainder};
use console_rules::PlainLine;

// What a line prints.
pub fn put_plain(l: PlainLine, line: &[u8], out: &mut [u8]) -> usize
    ensures { Brief (plain_text l (words_of line.now)) out.old out.new result }
{
    match l {
        PlainLine::Remainder => put_remainder(line, out),
        PlainLine::Overlay => put_overlay(line, out),
        PlainLine::Correct => put_correct(line, out),
        PlainLine::Build => put_build(line, out),
        PlainLine::AllCall => put_all_call_frame(line, out),
        PlainLine::Up => put_up(line, out),
        PlainLine::Down => put_down(line, out),
        PlainLine::Code => put_code(line, out),
        PlainLine::Feet => put_feet(line, out),
        PlainLine::Ac => put_ac(line, out),
        PlainLine::Explain => put_explain(line, out),
        PlainLine::Help => put_help(out),
    }
}
