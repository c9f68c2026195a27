// The program stream_cases: every file that its arguments name is a stream of its own; it prints each name and then the transcript.
#![tactic(auto)]

use std::env::FillError;
use std::fs::File;
use std::io::Write;
use std::rt::Env;

// A word that names no file: it and a question mark.
fn show_none(rt: &HostRuntime, word: &[u8]) {
    let mut out = std::io::writer(rt);
    let _ = out.write_all(word);
    let _ = out.write_all(b" ?\n");
}

// A file by its name: "== NAME" and its lines, or "NAME ?" where it cannot be opened.
fn show_file(rt: &HostRuntime, name: &str) {
    match File::open(rt, name) {
        Ok(mut file) => {
            let _ = println!(rt; "== {name}");
            stream_lines::print_lines(rt, &mut file);
        }
        Err(_) => show_none(rt, name.as_bytes()),
    }
}

// The file that the i-th word names, and whether there is such a word. A path of std is UTF-8, so a word that is not names no file; nor does one
// that is longer than the buffer.
fn show_argument(rt: &HostRuntime, i: usize) -> bool {
    let mut word = [0u8; 4096];
    match rt.arg(i, &mut word) {
        Ok(length) => match str::from_utf8(&word[..length]) {
            Ok(name) => show_file(rt, name),
            Err(_) => show_none(rt, &word[..length]),
        },
        Err(FillError::TooLong) => show_none(rt, b""),
        Err(FillError::NotPresent) => return false,
    }
    true
}

fn main(rt: HostRuntime) {
    for i in 1..usize::MAX {
        if !show_argument(&rt, i) {
            return;
        }
    }
}
