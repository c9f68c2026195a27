// The lines of the console by their names.
ghost use Rattle.std.specs.Prelude.{◌≡◌};
ghost use Rattle.console_rules.specs.Names.{row_of};

use console_rules::{Command, FlightLine, PlainLine, Row, StationLine};

// Each line: its name, its call, how many words stand behind the name, which of them are bytes, one or two, and which may have a minus sign, counted
// from 1 with 0 for none, and whether it needs an aircraft.
const LINES: [(&[u8], Command, u8, u8, u8, u8, bool); 27] = [
    (
        b"remainder",
        Command::Plain(PlainLine::Remainder),
        1,
        1,
        0,
        0,
        false,
    ),
    (
        b"overlay",
        Command::Plain(PlainLine::Overlay),
        1,
        0,
        0,
        0,
        false,
    ),
    (
        b"correct",
        Command::Plain(PlainLine::Correct),
        4,
        1,
        2,
        0,
        false,
    ),
    (
        b"build",
        Command::Plain(PlainLine::Build),
        7,
        6,
        0,
        0,
        false,
    ),
    (
        b"allcall",
        Command::Plain(PlainLine::AllCall),
        3,
        0,
        0,
        0,
        false,
    ),
    (b"up", Command::Plain(PlainLine::Up), 1, 1, 0, 0, false),
    (b"down", Command::Plain(PlainLine::Down), 1, 1, 0, 0, false),
    (b"code", Command::Plain(PlainLine::Code), 4, 1, 0, 0, false),
    (b"feet", Command::Plain(PlainLine::Feet), 1, 0, 0, 0, false),
    (b"ac", Command::Plain(PlainLine::Ac), 1, 0, 0, 1, false),
    (
        b"model",
        Command::Flight(FlightLine::Model),
        5,
        0,
        0,
        0,
        false,
    ),
    (
        b"queue",
        Command::Flight(FlightLine::Queue),
        1,
        1,
        0,
        0,
        true,
    ),
    (b"send", Command::Flight(FlightLine::Send), 3, 3, 0, 0, true),
    (
        b"state",
        Command::Flight(FlightLine::State),
        0,
        0,
        0,
        0,
        true,
    ),
    (
        b"setup",
        Command::Station(StationLine::Setup),
        19,
        0,
        0,
        0,
        false,
    ),
    (
        b"target",
        Command::Station(StationLine::Target),
        3,
        0,
        0,
        0,
        false,
    ),
    (
        b"remove",
        Command::Station(StationLine::Remove),
        1,
        0,
        0,
        0,
        false,
    ),
    (
        b"move",
        Command::Station(StationLine::Move),
        3,
        0,
        0,
        0,
        false,
    ),
    (
        b"request",
        Command::Station(StationLine::Request),
        8,
        8,
        0,
        0,
        false,
    ),
    (
        b"plan",
        Command::Station(StationLine::Plan),
        1,
        0,
        0,
        0,
        false,
    ),
    (
        b"reply",
        Command::Station(StationLine::Reply),
        4,
        3,
        4,
        0,
        false,
    ),
    (
        b"report",
        Command::Station(StationLine::Report),
        1,
        0,
        0,
        0,
        false,
    ),
    (
        b"targets",
        Command::Station(StationLine::Targets),
        0,
        0,
        0,
        0,
        false,
    ),
    (
        b"entries",
        Command::Station(StationLine::Entries),
        0,
        0,
        0,
        0,
        false,
    ),
    (
        b"explain",
        Command::Plain(PlainLine::Explain),
        1,
        0,
        0,
        0,
        false,
    ),
    (b"quit", Command::Quit, 0, 0, 0, 0, false),
    (b"help", Command::Plain(PlainLine::Help), 0, 0, 0, 0, false),
];

// The line that a word names, if there is one.
pub(crate) fn find_row(word: &[u8]) -> Option<Row>
    ensures { result ≡ row_of word.now }
{
    for (name, command, words, bytes, more, sign, aircraft) in LINES {
        if text::same(word, name) {
            return Some(Row {
                command,
                words,
                bytes,
                more,
                sign,
                aircraft,
            });
        }
    }
    None
}
