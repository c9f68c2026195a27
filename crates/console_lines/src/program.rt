// The loop of the program console: each line of an input is answered before the next is waited for.
use crate::console::{begin, console_line, end};
use console_rules::Bench;
use std::io::Read;

// Room for the longest text: the lines of 128 entries.
const ROOM: usize = 12288;

// Prints what a line tells; where the write fails the console is over.
fn answer(rt: &(impl Print + Eprint), b: &mut Bench, line: &[u8], out: &mut [u8]) {
    let size = console_line(b, line, out);
    if !inputs::print(rt, &out[..size]) {
        end(b);
    }
}

// Prints what the console tells of each line that comes, until it is quit, the input ends or a write fails. Nothing says that an
// input ends, so the turns are bounded.
pub fn run<R: Read>(rt: &(impl Print + Eprint), source: &mut R, piece: &mut [u8]) {
    let mut line = [0u8; 1001];
    let mut out = [0u8; ROOM];
    let mut b = begin();
    let mut f = inputs::start();
    for _ in 0..u64::MAX {
        f = inputs::next_line(rt, source, f, piece, &mut line);
        if !f.is_line {
            return;
        }
        answer(rt, &mut b, &line[..f.size], &mut out);
        if b.over {
            return;
        }
    }
}
