// The numbers of literals in a row of bits: two for each variable, one for each sign.
ghost use Rattle.std.specs.Prelude.{◌≡◌, ◌≤◌};
ghost use Rattle.clausebytes.specs.Words.{literal_of, most_variables};
ghost use Rattle.sets.specs.Inner.Sets.{turned_by, code_of};

use clausebytes::word::{SIGN, magnitude};

// The number of the literal of a word, or of its negation where it is turned.
pub fn code(word: u32, turned: bool) -> usize
    requires { (literal_of word).variable ≤ most_variables }
    ensures { result ≡ code_of (turned_by turned (literal_of word)) }
{
    2 * magnitude(word) as usize + usize::from((word < SIGN) == turned)
}
