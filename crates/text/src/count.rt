// The words of a line and the lines of a text by their number.
ghost use Rattle.std.specs.Prelude.{◌≡◌, length};
ghost use Rattle.text_rules.specs.Line.{words_of, NthWord, NthLine};

use crate::line::{line_after, line_at, line_end, word};
use text_rules::Span;

// The k-th word of a line, from 0; an empty span where there is none.
pub fn nth_word(line: &[u8], k: usize) -> Span
    ensures { NthWord line.now k result }
{
    let mut w = word(line, 0);
    for _ in 0..k {
        w = word(line, w.to);
    }
    w
}

// How many words a line has.
pub fn word_count(line: &[u8]) -> usize
    ensures { result ≡ length (words_of line.now) }
{
    let mut w = word(line, 0);
    let mut n: usize = 0;
    while w.from < w.to {
        n += 1;
        w = word(line, w.to);
    }
    n
}

// The k-th line of a text, from 0; an empty span where there is none.
pub fn nth_line(s: &[u8], k: usize) -> Span
    ensures { NthLine s.now k result }
{
    let mut at: usize = 0;
    for _ in 0..k {
        at = line_after(s, line_end(s, at));
    }
    line_at(s, at)
}
