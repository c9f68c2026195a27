// The words of a line where a number, one with its sign, or bytes belong.
ghost use Rattle.std.specs.Prelude.{◌≡◌};
ghost use Rattle.text_rules.specs.Line.{words_of};
ghost use Rattle.console_rules.specs.Texts.{word, number_at, integer_at, BytesAt};
ghost use Rattle.console_rules.specs.Reasons.{says};
ghost use Rattle.console_rules.specs.declared.names.Sort.TheVariants as sort;

use console_rules::Sort;

// The number that the k-th word says; 0 where it says none.
pub fn number_at(line: &[u8], k: usize) -> u32
    ensures { result ≡ number_at k (words_of line.now) }
{
    let w = text::nth_word(line, k);
    text::number_of(&line[w.from..w.to]).unwrap_or(0)
}

// The number with its sign that the k-th word says; 0 where it says none.
pub fn integer_at(line: &[u8], k: usize) -> i32
    ensures { result ≡ integer_at k (words_of line.now) }
{
    let w = text::nth_word(line, k);
    text::integer_of(&line[w.from..w.to]).unwrap_or(0)
}

// The bytes that the k-th word says, at the front of out, and how many they are; none where it says none.
pub fn bytes_at(line: &[u8], k: usize, out: &mut [u8; 32]) -> usize
    ensures { BytesAt k (words_of line.now) out.old out.new result }
{
    let w = text::nth_word(line, k);
    text::hex_bytes(&line[w.from..w.to], out).unwrap_or(0)
}

// The word says what belongs there.
fn word_says(s: Sort, word: &[u8]) -> bool
    ensures { result ≡ says s word.now }
{
    match s {
        Sort::Number => text::number_of(word).is_some(),
        Sort::Integer => text::integer_of(word).is_some(),
        Sort::Bytes => text::hex_bytes(word, &mut [0; 32]).is_some(),
    }
}

// The k-th word says what belongs there.
pub fn says_at(line: &[u8], k: usize, s: Sort) -> bool
    ensures { result ≡ says s (word k (words_of line.now)) }
{
    let w = text::nth_word(line, k);
    word_says(s, &line[w.from..w.to])
}
