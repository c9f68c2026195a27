// Lines of text: words, numbers and bytes read from a line, and decimal and hex laid into a lent buffer. The definitions stand in crate text_rules.
#![tactic(auto)]

mod bases;
mod count;
mod hex;
mod line;
mod numbers;
mod pieces;
mod put;
mod signed;

pub use bases::number_of;
pub use count::{nth_line, nth_word, word_count};
pub use hex::{hex_bytes, put_hex, put_hex6};
pub use line::{line_after, line_at, line_end, same, word};
pub use numbers::number;
pub use pieces::gather;
pub use put::{put_byte, put_bytes, put_decimal};
pub use signed::{integer_of, put_signed};
pub use text_rules::{Gathered, Span};
