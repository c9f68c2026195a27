// The call of a line that is read, or why it is not.
ghost use Rattle.std.specs.Prelude.{◌≡◌, ◌++◌};
ghost use Rattle.text_rules.specs.Put.{Put, decimal};
ghost use Rattle.text_rules.specs.Line.{words_of};
ghost use Rattle.console_rules.specs.Texts.{Brief};
ghost use Rattle.console_rules.specs.Names.{row_of};
ghost use Rattle.console_rules.specs.Reasons.{too_long, sort_at, fault, unfit, judged, reading, reason_text};

use crate::names::find_row;
use console_rules::{Command, Reason, Row, Sort};

// What belongs at the k-th word.
fn sort_at(r: Row, k: u8) -> Sort
    ensures { result ≡ sort_at r k }
{
    if k == r.bytes || k == r.more {
        Sort::Bytes
    } else if k == r.sign {
        Sort::Integer
    } else {
        Sort::Number
    }
}

// The first word that does not say what belongs there, counted from 1 behind the name.
fn find_fault(line: &[u8], r: Row) -> Option<u8>
    ensures { result ≡ fault r (words_of line.now) }
{
    for k in 0..r.words {
        let at = k + 1;
        if !console_plain::says_at(line, at as usize, sort_at(r, at)) {
            return Some(at);
        }
    }
    None
}

// The k-th word is not of its sort.
fn unfit(s: Sort, k: u8) -> Reason
    ensures { result ≡ unfit s k }
{
    match s {
        Sort::Number | Sort::Integer => Reason::NoNumber(k),
        Sort::Bytes => Reason::NoBytes(k),
    }
}

// The call of a line that is read, or why it is not; an aircraft was made or not.
fn judge(line: &[u8], r: Row, made: bool) -> Result<Command, Reason>
    ensures { result ≡ judged r made (words_of line.now) }
{
    if text::word_count(line) != r.words as usize + 1 {
        return Err(Reason::Wanted(r.words));
    }
    if r.aircraft && !made {
        return Err(Reason::NoAircraft);
    }
    match find_fault(line, r) {
        None => Ok(r.command),
        Some(k) => Err(unfit(sort_at(r, k), k)),
    }
}

// The call of the line that a word names, if the line is read, or why it is not.
pub(crate) fn read(line: &[u8], name: &[u8], made: bool) -> Result<Command, Reason>
    ensures { result ≡ reading (row_of name.now) made (words_of line.now) }
{
    let Some(r) = find_row(name) else {
        return Err(Reason::NoSuchLine);
    };
    judge(line, r, made)
}

// A number within a text.
fn put_counted(out: &mut [u8], before: &[u8], n: u8, after: &[u8]) -> usize
    ensures { Put (before.now ++ (decimal n ++ after.now)) 0 out.old out.new result }
{
    let number = text::put_bytes(out, 0, before);
    let rest = text::put_decimal(out, number, n as u32);
    text::put_bytes(out, rest, after)
}

// Why the line is not read.
pub(crate) fn put_reason(why: Reason, out: &mut [u8]) -> usize
    ensures { Brief (reason_text why) out.old out.new result }
{
    match why {
        Reason::NoSuchLine => text::put_bytes(out, 0, b"? no such line\n"),
        Reason::Wanted(n) => put_counted(out, b"? words wanted: ", n, b"\n"),
        Reason::NoAircraft => text::put_bytes(out, 0, b"? no aircraft\n"),
        Reason::NoNumber(k) => put_counted(out, b"? word ", k, b" is no number\n"),
        Reason::NoBytes(k) => put_counted(out, b"? word ", k, b" is no bytes\n"),
    }
}

// For a line that is longer than 1000 bytes.
pub(crate) fn put_too_long(out: &mut [u8]) -> usize
    ensures { Put too_long 0 out.old out.new result }
{
    text::put_bytes(out, 0, b"? longer than 1000 bytes\n")
}
