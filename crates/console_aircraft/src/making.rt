// The line `model ADDRESS AC ID FS CA`.
ghost use Rattle.text_rules.specs.Line.{words_of};
ghost use Rattle.console_rules.specs.Aircraft.{Showed, made_said, model_said};
ghost use Rattle.model_rules.specs.Said.{made_as};

use crate::answers::put_number;
use console_plain::number_at;
use model::Refusal;
use model_rules::Transponder;

// The aircraft that was made, or the one before.
fn put_made(m: Result<Transponder, Refusal>, a: &mut Option<Transponder>, out: &mut [u8]) -> usize
    ensures { Showed (made_said a.old (made_as m)) out.old out.new a.new result }
{
    match m {
        Ok(t) => {
            *a = Some(t);
            put_number(0, out)
        }
        Err(r) => put_number(u8::from(r), out),
    }
}

// Makes the aircraft.
pub(crate) fn put_model(line: &[u8], a: &mut Option<Transponder>, out: &mut [u8]) -> usize
    ensures { Showed (model_said a.old (words_of line.now)) out.old out.new a.new result }
{
    let address = number_at(line, 1);
    let ac = number_at(line, 2);
    let id = number_at(line, 3);
    let fs = number_at(line, 4);
    let ca = number_at(line, 5);
    put_made(model::make(address, ac, id, fs, ca), a, out)
}
