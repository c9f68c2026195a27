// The run of a stream.
use station_rules::Station;

// The station, the place and the number of the next record, and whether the run goes on.
#[derive(Clone, Copy)]
pub struct Run {
    pub station: Station,
    pub at: usize,
    pub n: u32,
    pub more: bool,
}
