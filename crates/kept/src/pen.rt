// Words and lines behind each other in two lent buffers: with a pen they are measured first, and then written.
ghost use Rattle.std.specs.Prelude.{[], ◌∷◌, ◌≡◌};
ghost use Rattle.laws.specs.Inner.Stores.{Stored};
ghost use Rattle.laws.specs.Numbers.{little};
ghost use Rattle.kept.specs.Inner.Pens.{cause_text, change_for, line_for, Put, Puttable, Told, Tellable};

use answer::put;
use text::number::width;
use text::write::{put_bytes, put_field, put_number};

#[derive(Clone, Copy)]
pub struct Pen {
    // Whether what is put is written, or only measured.
    pub writing: bool,
    // The places behind what was put into either buffer.
    pub kept: usize,
    pub lines: usize,
    // How many clauses and lines were put.
    pub clauses: u32,
    pub changes: u32,
}

// Why something goes.
#[derive(Clone, Copy)]
pub enum Cause {
    // A literal stands in the clause before.
    Literal,
    // The clause has a literal and its negation.
    Tautology,
    // A clause that is kept has the same literals.
    Repeat,
}

// Puts a word, and returns the place behind it.
pub fn put_word(writing: bool, out: &mut [u8], at: usize, word: u32) -> usize
    requires { Puttable (little 4 word) writing out.old at }
    ensures { Put (little 4 word) writing out.old at result out.new }
{
    if !writing {
        return at + 4;
    }
    put(out, at, word);
    at + 4
}

impl Cause {
    // The word of a cause, with a tab before it and one behind it.
    fn text(self) -> &'static [u8]
        ensures { result.now ≡ cause_text self }
    {
        match self {
            Cause::Literal => b"\tliteral\t",
            Cause::Tautology => b"\ttautology\t",
            Cause::Repeat => b"\trepeat\t",
        }
    }
}

// Puts the line of a change, and returns the place behind it.
fn put_line(
    writing: bool,
    lines: &mut [u8],
    at: usize,
    clause: u32,
    cause: Cause,
    number: u32,
) -> usize
    requires { Puttable (line_for clause cause number) writing lines.old at }
    ensures { Put (line_for clause cause number) writing lines.old at result lines.new }
{
    let text = cause.text();
    if !writing {
        return at + (width(clause) + (text.len() + (width(number) + 1)));
    }
    let word = put_number(lines, at, clause);
    let last = put_bytes(lines, word, text);
    put_field(lines, last, number, b'\n')
}

// Puts the line of a change, and counts it.
pub fn put_change(lines: &mut [u8], pen: Pen, clause: u32, cause: Cause, number: u32) -> Pen
    requires { Tellable (change_for clause cause number ∷ []) lines.old pen }
    ensures { Told (change_for clause cause number ∷ []) lines.old pen lines.new result }
{
    Pen {
        lines: put_line(pen.writing, lines, pen.lines, clause, cause, number),
        changes: pen.changes + 1,
        ..pen
    }
}
