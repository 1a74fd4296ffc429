// Writing the clause bytes of a text that is known to be right: it is read once more, and its words stand between white space.
ghost use Rattle.std.specs.Prelude.{◌≡◌, ◌+◌, ◌≤◌, length};
ghost use Rattle.laws.specs.Inner.Stores.{Stored};
ghost use Rattle.laws.specs.Lists.{splice};
ghost use Rattle.laws.specs.Numbers.{little};
ghost use Rattle.body.specs.Inner.States.{start_of};
ghost use Rattle.dimacs.specs.Inner.Walks.{bytes_from};
ghost use Rattle.dimacs.specs.Inner.Copies.{no_pen, pen_bytes, digit_of, minus_of, written, Fits, Copying};

use answer::put;
use classes::Classes;
use clausebytes::word::complement;

// What has been read of a word.
#[derive(Clone, Copy)]
pub struct Pen {
    // Whether a `-` or a digit of it was read.
    pub begun: bool,
    pub negative: bool,
    pub value: u32,
}

impl Pen {
    // Before a word.
    fn start() -> Pen
        ensures { result ≡ no_pen }
    {
        Pen {
            begun: false,
            negative: false,
            value: 0,
        }
    }

    // The word that has been read.
    fn word(self) -> u32
        ensures { little 4 result ≡ pen_bytes self }
    {
        if self.negative {
            return complement(self.value);
        }
        self.value
    }

    // A digit.
    fn digit(self, byte: u8) -> Pen
        requires { Fits self byte }
        ensures { result ≡ digit_of self byte }
    {
        Pen {
            begun: true,
            value: self.value * 10 + u32::from(byte - b'0'),
            ..self
        }
    }

    // A `-`.
    fn minus(self) -> Pen
        ensures { result ≡ minus_of self }
    {
        Pen {
            begun: true,
            negative: true,
            ..self
        }
    }
}

// Writes a word where one is to be written, and returns the next place.
fn put_word(writes: bool, out: &mut [u8], at: usize, word: u32) -> usize
    requires { at + length (written writes (little 4 word)) ≤ length out.old }
    ensures { Stored (written writes (little 4 word)) out.old at result out.new }
{
    if writes {
        put(out, at, word);
        return at + 4;
    }
    at
}

// Writes the clause bytes of a text from a place on. (What the header declares is asked for by the contract alone.)
pub fn copy(
    classes: &Classes,
    text: &[u8],
    from: usize,
    variables: u32,
    declared: u32,
    out: &mut [u8],
)
    requires { Copying text.now (start_of from variables declared) out.old }
    ensures { out.new
        ≡ splice out.old 0
        (bytes_from (start_of from variables declared) text.now from) }
{
    let mut pen = Pen::start();
    let mut at = 0;
    for i in from..text.len() {
        let byte = text[i];
        if classes.is_digit(byte) {
            pen = pen.digit(byte);
        } else if classes.is_white(byte) {
            at = put_word(pen.begun, out, at, pen.word());
            pen = Pen::start();
        } else {
            pen = pen.minus();
        }
    }
    put_word(pen.begun, out, at, pen.word());
}
