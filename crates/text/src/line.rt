// Lines of an input and words of a line, by their places.
ghost use Rattle.std.specs.Prelude.{◌≡◌};
ghost use Rattle.text_rules.specs.Line.{blank, in_word, run_end, line_after, LineTo, LineHeld, NextWord, same_as};

use text_rules::Span;

// The place of the first newline at or after at, or the input's length.
pub fn line_end(s: &[u8], at: usize) -> usize
    ensures { LineTo s.now at result }
{
    for i in at..s.len() {
        if s[i] == 10 {
            return i;
        }
    }
    s.len()
}

// The line that begins at at; behind the input's end the empty span there.
pub fn line_at(s: &[u8], at: usize) -> Span
    ensures { LineHeld s.now at result }
{
    let to = line_end(s, at);
    if to < at {
        return Span { from: to, to };
    }
    Span { from: at, to }
}

// The place behind the newline at a line's end.
pub fn line_after(s: &[u8], end: usize) -> usize
    ensures { result ≡ line_after s.now end }
{
    if end < s.len() {
        return end + 1;
    }
    s.len()
}

// The next word at or after at; the empty span at the line's end where there is none.
pub fn word(line: &[u8], at: usize) -> Span
    ensures { NextWord line.now at result }
{
    let from = blanks_end(line, at);
    let to = word_end(line, from);
    Span { from, to }
}

// The word is the name, byte for byte.
pub fn same(word: &[u8], name: &[u8]) -> bool
    ensures { result ≡ same_as word.now name.now }
{
    check::same(word, name)
}

// A space, a tab or a carriage return.
fn is_blank(b: u8) -> bool
    ensures { result ≡ blank b }
{
    if b == 32 {
        return true;
    }
    if b == 9 {
        return true;
    }
    b == 13
}

// The first place at or after at that has no blank.
fn blanks_end(line: &[u8], at: usize) -> usize
    ensures { result ≡ run_end blank line.now at }
{
    for i in at..line.len() {
        if !is_blank(line[i]) {
            return i;
        }
    }
    line.len()
}

// The first place at or after at that has a blank.
fn word_end(line: &[u8], at: usize) -> usize
    ensures { result ≡ run_end in_word line.now at }
{
    for i in at..line.len() {
        if is_blank(line[i]) {
            return i;
        }
    }
    line.len()
}
