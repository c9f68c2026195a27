// The lines of the aircraft, each by its own function.
ghost use Rattle.text_rules.specs.Line.{words_of};
ghost use Rattle.console_rules.specs.Aircraft.{Showed, flight_said};

use crate::making::put_model;
use crate::queuing::put_queue;
use crate::sending::put_send;
use crate::showing::put_state;
use console_rules::FlightLine;
use model_rules::Transponder;

// What a line says, and the aircraft that it leaves.
pub fn put_flight(l: FlightLine, line: &[u8], a: &mut Option<Transponder>, out: &mut [u8]) -> usize
    ensures { Showed (flight_said l a.old (words_of line.now)) out.old out.new a.new result }
{
    match l {
        FlightLine::Model => put_model(line, a, out),
        FlightLine::Queue => put_queue(line, a, out),
        FlightLine::Send => put_send(line, a, out),
        FlightLine::State => put_state(a, out),
    }
}
