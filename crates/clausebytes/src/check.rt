// The check of clause bytes that are to be written, refusal 9.
ghost use Rattle.std.specs.Prelude.{◌≡◌};
ghost use Rattle.clausebytes.specs.Inner.Checks.{checked_of};

use crate::limits::{MOST_CLAUSES, MOST_LITERALS, MOST_VARIABLES};
use crate::word::{magnitude, word_at};

// How many clauses and literals clause bytes are.
#[derive(Clone, Copy)]
pub struct Counted {
    pub clauses: u32,
    pub literals: u32,
}

// Whether clause bytes are right under a number of declared variables; and if so, how many clauses and literals they are.
pub fn check(bytes: &[u8], variables: u32) -> Option<Counted>
    ensures { result ≡ checked_of bytes.now variables }
{
    if variables > MOST_VARIABLES {
        return None;
    }
    if bytes.len() % 4 != 0 {
        return None;
    }
    let mut closed = true;
    let mut clauses: u32 = 0;
    let mut literals: u32 = 0;
    for i in 0..bytes.len() / 4 {
        let word = word_at(bytes, 4 * i);
        if word == 0 {
            if clauses >= MOST_CLAUSES {
                return None;
            }
            clauses += 1;
            closed = true;
        } else {
            if magnitude(word) > variables {
                return None;
            }
            if literals >= MOST_LITERALS {
                return None;
            }
            literals += 1;
            closed = false;
        }
    }
    if !closed {
        return None;
    }
    Some(Counted { clauses, literals })
}
