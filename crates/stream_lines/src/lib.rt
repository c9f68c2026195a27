// The lines of a stream that is read from a file: the one loop of every program that prints a transcript.
#![tactic(auto)]

use std::io::Read;
use stream::ROOM;

// Prints the lines of a stream, and answers whether every write was done. The lines of the records are held back until one record more might
// not fit, and written whole and in order.
fn print_stream(rt: &(impl Print + Eprint), s: &[u8]) -> bool {
    let mut lines = [0u8; ROOM];
    let mut held: usize = 0;
    let mut run = stream::begin();
    while run.more {
        if stream::is_full(held) {
            if !inputs::print(rt, &lines[..held]) {
                return false;
            }
            held = 0;
        }
        held = stream::advance(s, &mut run, &mut lines, held);
    }
    inputs::print(rt, &lines[..held])
}

// Says on standard error where a file goes on behind what was read of it.
fn tell_of_more<R: Read>(rt: &impl Eprint, source: &mut R) {
    let mut beyond = [0u8; 1];
    if let Ok(1) = source.read(&mut beyond) {
        let _ = eprintln!(rt; "input beyond the first 64 KiB is not part of the stream");
    }
}

// Prints the lines of the stream that the first 64 KiB of a file are. Whether the file goes on is asked last, so that no line waits for it.
pub fn print_lines<R: Read>(rt: &(impl Print + Eprint), source: &mut R) {
    let mut input = [0u8; 65536];
    let got = inputs::read_full(source, &mut input);
    if print_stream(rt, &input[..got]) && got == input.len() {
        tell_of_more(rt, source);
    }
}
