// The classes of bytes in a DIMACS text, as a table of all 256: what a reader asks of a byte is one look into it.
#![tactic(auto)]

mod table;

ghost use Rattle.std.specs.Prelude.{◌≡◌, true, eqb};
ghost use Rattle.classes.specs.Inner.Classes.{class_of, code, is_letter, is_white, is_digit, table};

use table::CLASSES;
pub use table::{
    BLANK, DIGIT, LETTER_C, LETTER_F, LETTER_N, LETTER_P, MINUS, NEWLINE, NOUGHT, REST, RETURN,
};

// The table. It is made once for a text and lent from there: each use of a constant array makes it anew.
#[derive(Drop)]
pub struct Classes {
    pub of: [u8; 256],
    pub ghost right: { of ≡ table },
}

impl Classes {
    pub fn new() -> Self
        ensures { result.of ≡ table }
    {
        Self { of: CLASSES }
    }

    // The class of a byte.
    fn class_of(&self, byte: u8) -> u8
        ensures { result ≡ code (class_of byte) }
    {
        self.of[usize::from(byte)]
    }

    // Whether a byte is of a class.
    pub fn is_of(&self, byte: u8, class: u8) -> bool
        ensures { result ≡ eqb (code (class_of byte)) class }
    {
        self.class_of(byte) == class
    }

    // Whether a byte is a letter. Its class tells, but for letters of the rest.
    pub fn is_letter(&self, byte: u8, letter: u8) -> bool
        requires { is_letter (class_of letter) ≡ true }
        ensures { result ≡ eqb byte letter }
    {
        let class = self.class_of(byte);
        class == self.class_of(letter) && (class != REST || byte == letter)
    }

    // Whether a byte is white space.
    pub fn is_white(&self, byte: u8) -> bool
        ensures { result ≡ is_white (class_of byte) }
    {
        self.class_of(byte) < MINUS
    }

    // Whether a byte is a digit.
    pub fn is_digit(&self, byte: u8) -> bool
        ensures { result ≡ is_digit (class_of byte) }
    {
        self.class_of(byte) > REST
    }
}

// Whether a byte is white space, by itself: for a reader to which no table is lent.
pub fn is_space(byte: u8) -> bool
    ensures { result ≡ is_white (class_of byte) }
{
    matches!(byte, b' ' | b'\t' | b'\n' | b'\r')
}
