// The loop of the program feet: each line of an input is answered before the next is waited for.
use crate::lines::feet_line;
use std::io::Read;

// Prints what feet says of each line that comes, until the input ends or a write fails. Nothing says that an input ends, so the turns are bounded.
pub fn run<R: Read>(rt: &(impl Print + Eprint), source: &mut R, piece: &mut [u8]) {
    let mut line = [0u8; 1001];
    let mut out = [0u8; 32];
    let mut f = inputs::start();
    for _ in 0..u64::MAX {
        f = inputs::next_line(rt, source, f, piece, &mut line);
        if !f.is_line {
            return;
        }
        let n = f.size;
        let size = feet_line(&line[..n], &mut out);
        if !inputs::print(rt, &out[..size]) {
            return;
        }
    }
}
