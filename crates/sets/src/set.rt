// Clauses as sets of literals: which are the same, which have a literal and its negation, and their signatures.
ghost use Rattle.std.specs.Prelude.{◌≡◌};
ghost use Rattle.tidied.specs.Tidying.{same_literals, is_tautology};
ghost use Rattle.sets.specs.Inner.Sets.{clause_from, end_from, some_of, sign_of, Numbered, Seeded};

use crate::row::{Row, mark, some_is, wipe};
use clausebytes::word::word_at;

// The place of the zero of a clause.
pub fn end_of(bytes: &[u8], from: usize) -> usize
    ensures { result ≡ end_from bytes.now from }
{
    for i in from..bytes.len() / 4 {
        if word_at(bytes, 4 * i) == 0 {
            return i;
        }
    }
    from.max(bytes.len() / 4)
}

// Whether a literal of clause a is missing in clause b; or, where they are turned, whether the negation of one is there.
fn some_of(bytes: &[u8], a: usize, b: usize, turned: bool, row: &mut Row) -> bool
    requires { Numbered bytes.now }
    ensures { result ≡ some_of turned (clause_from bytes.now a) (clause_from bytes.now b) }
{
    mark(bytes, b, 0, &mut row.bits);
    let some = some_is(bytes, a, turned, &row.bits);
    wipe(bytes, b, &mut row.bits);
    some
}

// Whether two clauses have the same literals.
pub fn is_same(bytes: &[u8], a: usize, b: usize, row: &mut Row) -> bool
    requires { Numbered bytes.now }
    ensures { result ≡ same_literals (clause_from bytes.now a) (clause_from bytes.now b) }
{
    !some_of(bytes, a, b, false, row) && !some_of(bytes, b, a, false, row)
}

// Whether a clause has a literal and its negation.
pub fn is_tautology(bytes: &[u8], from: usize, row: &mut Row) -> bool
    requires { Numbered bytes.now }
    ensures { result ≡ is_tautology (clause_from bytes.now from) }
{
    some_of(bytes, from, from, true, row)
}

// The signature of a clause.
pub fn sign(bytes: &[u8], from: usize, seed: u32, row: &mut Row) -> u64
    requires { Seeded bytes.now seed }
    ensures { result ≡ sign_of seed (clause_from bytes.now from) }
{
    let sign = mark(bytes, from, seed, &mut row.bits);
    wipe(bytes, from, &mut row.bits);
    sign
}
