// Writing text into a lent buffer that has room for it.
ghost use Rattle.std.specs.Prelude.{◌++◌, ◌∷◌, [], ◌+◌, ◌≤◌, ◌<◌, length};
ghost use Rattle.laws.specs.Inner.Stores.{Stored};
ghost use Rattle.text.specs.Texts.{decimal};

use crate::number::width;

// Writes a byte, and returns the next place.
pub fn put_byte(text: &mut [u8], at: usize, byte: u8) -> usize
    requires { at < length text.old }
    ensures { Stored (byte ∷ []) text.old at result text.new }
{
    text[at] = byte;
    at + 1
}

// Writes bytes, and returns the next place.
pub fn put_bytes(text: &mut [u8], at: usize, bytes: &[u8]) -> usize
    requires { at + length bytes.now ≤ length text.old }
    ensures { Stored bytes.now text.old at result text.new }
{
    let end = at + bytes.len();
    text[at..end].copy_from_slice(bytes);
    end
}

// Writes a number in decimal, from its last digit to its first, and returns the next place.
pub fn put_number(text: &mut [u8], at: usize, number: u32) -> usize
    requires { at + length (decimal number) ≤ length text.old }
    ensures { Stored (decimal number) text.old at result text.new }
{
    let end = at + width(number);
    let mut rest = number;
    for i in (at..end).rev() {
        text[i] = b'0' + (rest % 10) as u8;
        rest /= 10;
    }
    end
}

// Writes a number in decimal and a byte behind it, and returns the next place.
pub fn put_field(text: &mut [u8], at: usize, number: u32, end: u8) -> usize
    requires { at + length (decimal number ++ (end ∷ [])) ≤ length text.old }
    ensures { Stored (decimal number ++ (end ∷ [])) text.old at result text.new }
{
    let next = put_number(text, at, number);
    put_byte(text, next, end)
}
