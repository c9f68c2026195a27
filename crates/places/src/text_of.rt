// Bit numbers laid one after the other into a lent buffer.
ghost use Rattle.std.specs.Prelude.{[], ◌∷◌, ◌≤◌, length, take};
ghost use Rattle.text_rules.specs.Put.{Put, numbers_behind};
ghost use Rattle.parity_rules.specs.Places.{places_from, places_in};

use numbers::live;
use parity::bit_at;

// The most bytes of a mark buffer that are told: then a bit's number has at most three digits. A message has 14 at most.
const MOST: usize = 124;

// A bit's number where it is marked, and else nothing.
fn put_place(out: &mut [u8], at: usize, bit: u32, number: u32) -> usize
    requires { at ≤ length out.old }
    ensures { Put (numbers_behind (places_from number (bit ∷ []))) at out.old out.new result }
{
    if bit == 0 {
        return at;
    }
    let end = text::put_byte(out, at, 32);
    text::put_decimal(out, end, number)
}

// The places of a mark buffer of at most 124 bytes.
fn put_all(out: &mut [u8], at: usize, marks: &[u8]) -> usize
    requires { length marks.now ≤ 124 }
    ensures { Put (numbers_behind (places_in marks.now)) at out.old out.new result }
{
    let n = marks.len() * 8;
    let mut end = at.min(out.len());
    for i in 0..n {
        end = put_place(out, end, bit_at(marks, i), i as u32 + 1);
    }
    end
}

// The places of a mark buffer; of one that is longer than any message, those of its first 124 bytes.
pub fn put_places(out: &mut [u8], at: usize, marks: &[u8]) -> usize
    ensures { Put (numbers_behind (places_in (take 124 marks.now))) at out.old out.new result }
{
    let n = live(marks.len(), MOST);
    put_all(out, at, &marks[..n])
}
