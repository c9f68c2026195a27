// The lines of the console: their calls, and what each is made of.

// A line without a state.
#[derive(Clone, Copy)]
pub enum PlainLine {
    Remainder,
    Overlay,
    Correct,
    Build,
    AllCall,
    Up,
    Down,
    Code,
    Feet,
    Ac,
    Explain,
    Help,
}

// A line of the aircraft.
#[derive(Clone, Copy)]
pub enum FlightLine {
    Model,
    Queue,
    Send,
    State,
}

// A line of the station.
#[derive(Clone, Copy)]
pub enum StationLine {
    Setup,
    Target,
    Remove,
    Move,
    Request,
    Plan,
    Reply,
    Report,
    Targets,
    Entries,
}

// A call of the console.
#[derive(Clone, Copy)]
pub enum Command {
    Plain(PlainLine),
    Flight(FlightLine),
    Station(StationLine),
    Quit,
}

// What belongs at a word of a line: a number, a number that may have a minus sign, or bytes.
#[derive(Clone, Copy)]
pub enum Sort {
    Number,
    Integer,
    Bytes,
}

// A line: its call, how many words stand behind the name, which of them are bytes (two at most) and which may have a minus sign (0 for none; all
// others are numbers), and whether it needs an aircraft.
#[derive(Clone, Copy)]
pub struct Row {
    pub command: Command,
    pub words: u8,
    pub bytes: u8,
    pub more: u8,
    pub sign: u8,
    pub aircraft: bool,
}

// Why a line is not read: there is none of its name, the words wanted behind the name, no aircraft, or the number of the word at fault.
#[derive(Clone, Copy)]
pub enum Reason {
    NoSuchLine,
    Wanted(u8),
    NoAircraft,
    NoNumber(u8),
    NoBytes(u8),
}
