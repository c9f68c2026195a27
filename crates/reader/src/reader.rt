// The calls on a reader. Thin functions over it leave the work to those on stream and place.
ghost use Rattle.std.specs.Prelude.{◌≡◌};
ghost use Rattle.reader_rules.specs.Answers.{found_said, said_at};
ghost use Rattle.reader_rules.specs.Readers.{reader_at, said_by, moved_on};

use crate::reading::{next_place, record_at};
use reader_rules::{Found, Reader};

// A reader of a stream at a place.
pub fn reader_at<'a>(stream: &'a [u8], place: usize) -> Reader<'a>
    ensures { result ≡ reader_at stream.entry place }
{
    Reader { stream, place }
}

// What the reader finds where it is.
pub fn found_by<'a>(r: Reader<'a>) -> Found
    ensures { found_said result ≡ said_by r.entry }
{
    record_at(r.stream, r.place)
}

// The reader at the next record; where there is no whole record, it stays.
pub fn next<'a>(r: Reader<'a>) -> Reader<'a>
    ensures { result ≡ moved_on r.entry }
{
    Reader {
        stream: r.stream,
        place: next_place(r.stream, r.place),
    }
}

// What a reader at a place finds: of plain parameters, for covered code to call.
pub fn found_at(s: &[u8], at: usize) -> Found
    ensures { found_said result ≡ said_at s.now at }
{
    found_by(reader_at(s, at))
}
