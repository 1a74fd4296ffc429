// How a formula begins: with a symbol, or with a parenthesis that is opened.
ghost use Rattle.std.specs.Prelude.{true, ◌≡◌, ◌+◌, ◌<◌};
ghost use Rattle.satfile.specs.Inner.Reads.{fills, negates, digits_from, number_in, one_of, operand_in, open_in, begin_in};
ghost use Rattle.satfile.specs.Inner.Parts.{Inside, Skipped, TellsNumber, TellsBegin, leaf_nodes, leaf_bytes};

use classes::is_space;
use text::number::{digit_of, grown, is_digit};

const OPEN: u8 = b'(';

const STAR: u8 = b'*';

const PLUS: u8 = b'+';

const MINUS: u8 = b'-';

// No accepted text goes on so from here.
#[derive(Clone, Copy)]
pub struct Wrong {
    pub place: usize,
}

// What formulas stand in together.
#[derive(Clone, Copy)]
pub enum Group {
    // The list of `*(`.
    And,
    // The list of `+(`.
    Or,
    // Parentheses round one formula.
    One,
    // The same behind a `-`.
    Not,
    // The text: it has one formula, and no parentheses round it.
    Whole,
}

// How a formula begins.
#[derive(Clone, Copy)]
pub enum Lead {
    // A symbol, negated or not, and the place behind it.
    Symbol {
        value: u32,
        negated: bool,
        at: usize,
    },
    // A parenthesis that is opened, and the place behind it.
    Open {
        group: Group,
        at: usize,
    },
}

// A number that was read, and the place behind it.
#[derive(Clone, Copy)]
pub struct Numeral {
    pub value: u32,
    pub at: usize,
}

// Whether a formula can stand in a parenthesis, where `depth` of them may still be opened.
fn is_filled(options: u32, depth: u32) -> bool
    ensures { result ≡ fills options depth }
{
    depth != 0 && (options != 0 || depth != 1)
}

// Whether a number or such a formula can stand behind a `-`.
fn is_negated(options: u32, depth: u32) -> bool
    ensures { result ≡ negates options depth }
{
    options != 0 || is_filled(options, depth)
}

// The group of one formula, negated or not.
fn one_of(negated: bool) -> Group
    ensures { result ≡ one_of negated }
{
    if negated { Group::Not } else { Group::One }
}

// What stays the same while formulas and lists call each other: what is read, and how many options there are. They are lent this
// by one thin reference, which stands in a register.
#[derive(Clone, Copy)]
pub struct Reader<'a> {
    pub text: &'a [u8],
    pub options: u32,
}

impl Reader<'_> {
    // The place behind white space.
    pub fn skip(&self, at: usize) -> usize
        requires { Inside self.now at }
        ensures { Skipped self.now at result }
    {
        for i in at..self.text.len() {
            if !is_space(self.text[i]) {
                return i;
            }
        }
        self.text.len()
    }

    // Reads the further digits of a number.
    fn digits(&self, at: usize, first: u32) -> Result<Numeral, Wrong>
        requires { Inside self.now at }
        ensures { TellsNumber 0 self.now at (digits_from self.now.options first) result }
    {
        let mut value = first;
        for i in at..self.text.len() {
            let byte = self.text[i];
            if !is_digit(byte) {
                return Ok(Numeral { value, at: i });
            }
            let Some(more) = grown(true, value, digit_of(byte), self.options) else {
                return Err(Wrong { place: i });
            };
            value = more;
        }
        Ok(Numeral {
            value,
            at: self.text.len(),
        })
    }

    // Reads a number from 1 on.
    fn number(&self, at: usize) -> Result<Numeral, Wrong>
        requires { Inside self.now (at + 1) }
        ensures { TellsNumber 1 self.now at (number_in self.now.options) result }
    {
        let byte = self.text[at];
        if !matches!(byte, b'1'..=b'9') {
            return Err(Wrong { place: at });
        }
        let first = digit_of(byte);
        if self.options < first {
            return Err(Wrong { place: at });
        }
        self.digits(at + 1, first)
    }

    // A number, or the parenthesis of one formula; negated or not.
    fn operand(&self, at: usize, depth: u32, negated: bool) -> Result<Lead, Wrong>
        requires { Inside self.now at }
        ensures { TellsBegin (leaf_bytes negated) self.now at depth (operand_in self.now.options depth negated) result }
    {
        if self.text.len() <= at {
            return Err(Wrong { place: at });
        }
        if self.text[at] != OPEN {
            let numeral = self.number(at)?;
            return Ok(Lead::Symbol {
                value: numeral.value,
                negated,
                at: numeral.at,
            });
        }
        if !is_filled(self.options, depth) {
            return Err(Wrong { place: at });
        }
        Ok(Lead::Open {
            group: one_of(negated),
            at: at + 1,
        })
    }

    // The parenthesis of a list, behind its `*` or `+`.
    fn open(&self, at: usize, depth: u32, group: Group) -> Result<Lead, Wrong>
        requires { (Inside self.now at) × (0 < depth) }
        ensures { TellsBegin (leaf_bytes true) self.now at depth (open_in group) result }
    {
        if self.text.len() <= at || self.text[at] != OPEN {
            return Err(Wrong { place: at });
        }
        Ok(Lead::Open { group, at: at + 1 })
    }

    // How the formula from a place on begins, where `depth` parentheses may still be opened.
    pub fn begin(&self, at: usize, depth: u32) -> Result<Lead, Wrong>
        requires { Inside self.now at }
        ensures { TellsBegin leaf_nodes self.now at depth (begin_in self.now.options depth) result }
    {
        if self.text.len() <= at {
            return Err(Wrong { place: at });
        }
        match self.text[at] {
            STAR if depth != 0 => self.open(at + 1, depth, Group::And),
            PLUS if depth != 0 => self.open(at + 1, depth, Group::Or),
            MINUS if is_negated(self.options, depth) => self.operand(at + 1, depth, true),
            STAR | PLUS | MINUS => Err(Wrong { place: at }),
            _ => self.operand(at, depth, false),
        }
    }
}
