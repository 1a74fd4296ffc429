// Writing clause bytes as text into a lent buffer that has room for it.
ghost use Rattle.std.specs.Prelude.{◌≡◌, ◌+◌, ◌^◌, ◌<◌, ◌≤◌, length};
ghost use Rattle.laws.specs.Lists.{splice};
ghost use Rattle.laws.specs.Inner.Stores.{Stored};
ghost use Rattle.clausebytes.specs.Words.{words_of};
ghost use Rattle.dimacs.specs.Texts.{header_line};
ghost use Rattle.dimacs.specs.Inner.Words.{word_text, words_text, text_of};

use clausebytes::word::{SIGN, magnitude, word_at};
use text::number::width;
use text::write::{put_byte, put_bytes, put_field};

// How many bytes of text a word is: its digits, the space or newline behind them, and the minus of a negated literal.
fn word_size(word: u32) -> usize
    ensures { result ≡ length (word_text word) }
{
    width(magnitude(word)) + 1 + (word / SIGN) as usize
}

// How many bytes the lines of clause bytes are.
pub fn lines_size(bytes: &[u8]) -> usize
    requires { length bytes.now < 2 ^ 32 }
    ensures { result ≡ length (words_text (words_of bytes.now)) }
{
    let mut size = 0;
    for i in 0..bytes.len() / 4 {
        size += word_size(word_at(bytes, 4 * i));
    }
    size
}

// Writes the header line, and returns the next place.
fn put_header(text: &mut [u8], variables: u32, clauses: u32) -> usize
    requires { length (header_line variables clauses) ≤ length text.old }
    ensures { Stored (header_line variables clauses) text.old 0 result text.new }
{
    let first = put_bytes(text, 0, b"p cnf ");
    let second = put_field(text, first, variables, b' ');
    put_field(text, second, clauses, b'\n')
}

// Writes the text of a word, and returns the next place.
fn put_word(text: &mut [u8], at: usize, word: u32) -> usize
    requires { at + length (word_text word) ≤ length text.old }
    ensures { Stored (word_text word) text.old at result text.new }
{
    if word == 0 {
        let next = put_byte(text, at, b'0');
        return put_byte(text, next, b'\n');
    }
    if word < SIGN {
        return put_field(text, at, magnitude(word), b' ');
    }
    let next = put_byte(text, at, b'-');
    put_field(text, next, magnitude(word), b' ')
}

// Writes the lines of clause bytes from `at` on.
fn put_words(bytes: &[u8], text: &mut [u8], at: usize)
    requires { at + length (words_text (words_of bytes.now)) ≤ length text.old }
    ensures { text.new ≡ splice text.old at (words_text (words_of bytes.now)) }
{
    let mut next = at;
    for i in 0..bytes.len() / 4 {
        next = put_word(text, next, word_at(bytes, 4 * i));
    }
}

// Writes a whole text.
pub fn put_text(bytes: &[u8], variables: u32, clauses: u32, text: &mut [u8])
    requires { length (text_of bytes.now variables clauses) ≤ length text.old }
    ensures { text.new ≡ splice text.old 0 (text_of bytes.now variables clauses) }
{
    let at = put_header(text, variables, clauses);
    put_words(bytes, text, at);
}
