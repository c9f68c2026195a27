// The lines of the console: the call that a line's first word names, and what a whole line tells.
ghost use Rattle.std.specs.Prelude.{◌≡◌};
ghost use Rattle.text_rules.specs.Line.{words_of};
ghost use Rattle.console_rules.specs.Texts.{word};
ghost use Rattle.console_rules.specs.Console.{Answers, begun, ended, call_told, command_told, comment, words_told, line_told};

use crate::reasons::{put_reason, put_too_long, read};
use console_rules::{Bench, Command};

// The bench before any line: no aircraft, the station before any setup, and nobody has quit.
pub fn begin() -> Bench
    ensures { result ≡ begun }
{
    Bench {
        aircraft: None,
        station: station::before_setup(),
        over: false,
    }
}

// The console is over.
pub(crate) fn end(b: &mut Bench)
    ensures { b.new ≡ ended b.old }
{
    b.over = true;
}

// What a call tells for a line that is read.
fn put_call(c: Command, line: &[u8], b: &mut Bench, out: &mut [u8]) -> usize
    ensures { Answers (call_told c b.old (words_of line.now)) out.old out.new b.new result }
{
    match c {
        Command::Plain(l) => console_plain::put_plain(l, line, out),
        Command::Flight(l) => console_aircraft::put_flight(l, line, &mut b.aircraft, out),
        Command::Station(l) => console_station::put_station(l, line, &mut b.station, out),
        Command::Quit => {
            end(b);
            0
        }
    }
}

// The line that the first word names, if it is read, or why it is not.
fn put_command(line: &[u8], name: &[u8], b: &mut Bench, out: &mut [u8]) -> usize
    requires { name.now ≡ word 0 (words_of line.now) }
    ensures { Answers (command_told b.old (words_of line.now)) out.old out.new b.new result }
{
    match read(line, name, b.aircraft.is_some()) {
        Ok(c) => put_call(c, line, b, out),
        Err(why) => put_reason(why, out),
    }
}

// The word begins with a hash sign.
fn is_comment(word: &[u8]) -> bool
    ensures { result ≡ comment word.now }
{
    if word.len() == 0 {
        return false;
    }
    word[0] == 35
}

// What a line tells that is not too long.
fn put_words(line: &[u8], b: &mut Bench, out: &mut [u8]) -> usize
    ensures { Answers (words_told b.old (words_of line.now)) out.old out.new b.new result }
{
    if text::word_count(line) == 0 {
        return 0;
    }
    let w = text::nth_word(line, 0);
    if is_comment(&line[w.from..w.to]) {
        return 0;
    }
    put_command(line, &line[w.from..w.to], b, out)
}

// A line as the text that the console prints for it; the bench is the one that it leaves.
pub fn console_line(b: &mut Bench, line: &[u8], out: &mut [u8]) -> usize
    ensures { Answers (line_told b.old line.now) out.old out.new b.new result }
{
    if b.over {
        return 0;
    }
    if 1000 < line.len() {
        return put_too_long(out);
    }
    put_words(line, b, out)
}
