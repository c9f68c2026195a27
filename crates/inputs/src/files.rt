// The file that a program reads, by the words of its command line, and what it writes.
ghost use Rattle.io.specs.Counts.{IsPrefixLen};

use crate::feed::within;
use std::env::FillError;
use std::fs::File;
use std::io::{Cursor, Error, Read, Result, Stdin, Write};
use std::rt::Env;

// What a program reads: standard input, or the file that its one word names.
#[derive(Drop)]
pub enum Source {
    Standard(Stdin),
    Named(File),
}

impl Read for Source {
    fn read(&mut self, buf: &mut [u8]) -> Result<usize> {
        match self {
            Source::Standard(input) => input.read(buf),
            Source::Named(file) => file.read(buf),
        }
    }
}

// The system's words for an error, without the number that std puts behind them.
fn plain(words: &str) -> &str {
    match words.split_once(" (os error ") {
        Some((before, _)) => before,
        None => words,
    }
}

// Says on standard error what failed, and why. Where that fails too there is nobody left to tell.
pub fn tell(rt: &impl Eprint, what: &str, error: &Error) {
    let mut buf = [0u8; 256];
    let mut room = Cursor::new(&mut buf[..]);
    let _ = write!(room, "{error}");
    let end = room.position() as usize;
    let size = within(end, &buf);
    let words = str::from_utf8(&buf[..size]).unwrap_or("it failed");
    let why = plain(words);
    let _ = eprintln!(rt; "{what}: {why}");
}

// A source that can be read, or nothing after a line that says why not. A folder can be opened but not read, which a read of no bytes shows.
fn readable(rt: &HostRuntime, mut source: Source, name: &str) -> Option<Source> {
    let mut none = [0u8; 0];
    match source.read(&mut none) {
        Ok(_) => Some(source),
        Err(error) => {
            tell(rt, name, &error);
            None
        }
    }
}

// The file of that name, or nothing after a line that says why not.
fn named(rt: &HostRuntime, name: &str) -> Option<Source> {
    match File::open(rt, name) {
        Ok(file) => readable(rt, Source::Named(file), name),
        Err(error) => {
            tell(rt, name, &error);
            None
        }
    }
}

// Whether the command line has more than one word.
fn has_two_words(rt: &HostRuntime) -> bool {
    let mut none = [0u8; 0];
    !matches!(rt.arg(2, &mut none), Err(FillError::NotPresent))
}

// What a program reads: standard input, or the file that the one word of its command line names; nothing after a line that says why not.
pub fn open(rt: &HostRuntime) -> Option<Source> {
    if has_two_words(rt) {
        let _ = eprintln!(rt;
            "one word at most: the name of the file to read; without one standard input is read"
        );
        return None;
    }
    let mut word = [0u8; 4096];
    match rt.arg(1, &mut word) {
        Ok(length) => match str::from_utf8(&word[..length]) {
            Ok(name) => named(rt, name),
            Err(_) => {
                let _ = eprintln!(rt; "the file's name: it is not UTF-8");
                None
            }
        },
        Err(FillError::NotPresent) => readable(rt, Source::Standard(rt.stdin()), "standard input"),
        Err(FillError::TooLong) => {
            let _ = eprintln!(rt; "the file's name: File name too long");
            None
        }
    }
}

// Prints a text. Where that fails standard error says so, and the program is to end.
pub fn print(rt: &(impl Print + Eprint), text: &[u8]) -> bool {
    match std::io::writer(rt).write_all(text) {
        Ok(()) => true,
        Err(error) => {
            tell(rt, "standard output", &error);
            false
        }
    }
}

// Reads until the buffer is full, the input ends or a read fails; what was read stands at the start of the buffer.
pub fn read_full<R: Read>(source: &mut R, buf: &mut [u8]) -> usize
    ensures { IsPrefixLen result buf.new }
{
    let mut done = 0;
    while done < buf.len() {
        match source.read(&mut buf[done..]) {
            Ok(0) => return done,
            Ok(n) => done += n,
            Err(_) => return done,
        }
    }
    done
}
