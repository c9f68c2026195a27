// What the console has on its bench, and what a line that may change it answers.
use model_rules::Transponder;
use station_rules::Station;

// The aircraft, if one was made, the station, and whether the console was quit.
#[derive(Clone, Copy)]
pub struct Bench {
    pub aircraft: Option<Transponder>,
    pub station: Station,
    pub over: bool,
}
