// Pieces of a text between marks: where one ends, whether it is a word, and the number that it is.
ghost use Rattle.std.specs.Prelude.{◌≡◌, ◌≤◌, length};
ghost use Rattle.text.specs.Texts.{same};
ghost use Rattle.text.specs.Inner.Pieces.{MarkAt, field_at};

use crate::number::number_of;

// A piece that is a number, and where the next piece begins: past the end of the text where there is none.
#[derive(Clone, Copy)]
pub struct Field {
    pub value: u32,
    pub next: usize,
}

// The place of the first mark from `at` on, or the end of the text.
pub fn find(text: &[u8], at: usize, mark: u8) -> usize
    requires { at ≤ length text.now }
    ensures { MarkAt mark text.now at result }
{
    for i in at..text.len() {
        if text[i] == mark {
            return i;
        }
    }
    text.len()
}

// Whether two runs of bytes are the same.
pub fn is_same(a: &[u8], b: &[u8]) -> bool
    ensures { result ≡ same a.now b.now }
{
    a == b
}

// The piece of a text from `at` on, as a number: nothing where there is no piece, or it is no number up to the limit.
pub fn number_at(text: &[u8], at: usize, mark: u8, most: u32) -> Option<Field>
    ensures { result ≡ field_at mark most text.now at }
{
    if text.len() < at {
        return None;
    }
    let end = find(text, at, mark);
    let value = number_of(&text[at..end], most)?;
    Some(Field {
        value,
        next: end + 1,
    })
}
