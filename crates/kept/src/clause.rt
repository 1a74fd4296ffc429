// A clause: its kept literals and their lines, or the one line of a clause that goes.
ghost use Rattle.std.specs.Prelude.{cond, [], ◌∷◌, ◌≡◌, length};
ghost use Rattle.laws.specs.Numbers.{little};
ghost use Rattle.bits.specs.Inner.Rows.{with_bits};
ghost use Rattle.clausal.specs.Clauses.{clauses_bytes};
ghost use Rattle.tidied.specs.Tidying.{firsts_of, others_of, equal, literal_changes, kept_of, changes_by};
ghost use Rattle.sets.specs.Inner.Sets.{clause_from, codes_of, no_literals};
ghost use Rattle.kept.specs.Inner.Pens.{literals_bytes, fate_for, Drawn, Drawable, Given};

use crate::pen::{Cause, Pen, put_change, put_word};
use clausebytes::word::word_at;
use sets::code::code;
use sets::row::{Row, wipe};
use sets::set::is_tautology;

// Puts a literal of a clause: its word, or the line that tells that it was there before.
fn put_literal(
    seen: bool,
    word: u32,
    clause: u32,
    position: u32,
    out: &mut [u8],
    lines: &mut [u8],
    pen: Pen,
) -> Pen
    requires { Drawable (cond seen [] (little 4 word)) 0
        (cond seen (record { clause = clause; cause = equal; number = position } ∷ []) []) out.old lines.old pen }
    ensures { Drawn (cond seen [] (little 4 word)) 0
        (cond seen (record { clause = clause; cause = equal; number = position } ∷ []) []) out.old lines.old pen
        out.new lines.new result }
{
    if seen {
        return put_change(lines, pen, clause, Cause::Literal, position);
    }
    Pen {
        kept: put_word(pen.writing, out, pen.kept, word),
        ..pen
    }
}

// Puts the literals of a clause that is kept, and marks them in a row without literals.
fn put_literals(
    bytes: &[u8],
    from: usize,
    clause: u32,
    out: &mut [u8],
    lines: &mut [u8],
    row: &mut [u8],
    pen: Pen,
) -> Pen
    requires given { Given bytes.now (literals_bytes (firsts_of (clause_from bytes.now from))) 0
        (literal_changes clause (others_of (clause_from bytes.now from))) out.old lines.old pen }
    requires empty { row.old ≡ no_literals }
    ensures { Drawn (literals_bytes (firsts_of (clause_from bytes.now from))) 0
        (literal_changes clause (others_of (clause_from bytes.now from))) out.old lines.old pen
        out.new lines.new result
        × (row.new ≡ with_bits (codes_of (clause_from bytes.now from)) row.old) }
{
    let mut drawn = pen;
    for i in from..bytes.len() / 4 {
        let word = word_at(bytes, 4 * i);
        if word == 0 {
            return drawn;
        }
        let n = code(word, false);
        let seen = bits::has(row, n);
        drawn = put_literal(seen, word, clause, (i - from) as u32, out, lines, drawn);
        bits::put(row, n, true);
    }
    drawn
}

// Puts a clause that is kept.
fn put_clause(
    bytes: &[u8],
    from: usize,
    clause: u32,
    out: &mut [u8],
    lines: &mut [u8],
    row: &mut Row,
    pen: Pen,
) -> Pen
    requires { Given bytes.now (clauses_bytes (firsts_of (clause_from bytes.now from) ∷ [])) 1
        (literal_changes clause (others_of (clause_from bytes.now from))) out.old lines.old pen }
    ensures { Drawn (clauses_bytes (firsts_of (clause_from bytes.now from) ∷ [])) 1
        (literal_changes clause (others_of (clause_from bytes.now from))) out.old lines.old pen
        out.new lines.new result }
{
    let drawn = put_literals(bytes, from, clause, out, lines, &mut row.bits, pen);
    wipe(bytes, from, &mut row.bits);
    Pen {
        kept: put_word(drawn.writing, out, drawn.kept, 0),
        clauses: drawn.clauses + 1,
        ..drawn
    }
}

// Puts what is kept of a clause, and the lines of what goes. `first` is the first clause that has the same literals.
pub fn put_fate(
    bytes: &[u8],
    from: usize,
    clause: u32,
    first: u32,
    out: &mut [u8],
    lines: &mut [u8],
    row: &mut Row,
    pen: Pen,
) -> Pen
    requires { Given bytes.now (clauses_bytes (kept_of (fate_for clause first (clause_from bytes.now from)) (clause_from bytes.now from)))
        (length (kept_of (fate_for clause first (clause_from bytes.now from)) (clause_from bytes.now from)))
        (changes_by clause (fate_for clause first (clause_from bytes.now from)) (clause_from bytes.now from)) out.old lines.old pen }
    ensures { Drawn
        (clauses_bytes (kept_of (fate_for clause first (clause_from bytes.now from)) (clause_from bytes.now from)))
        (length (kept_of (fate_for clause first (clause_from bytes.now from)) (clause_from bytes.now from)))
        (changes_by clause (fate_for clause first (clause_from bytes.now from)) (clause_from bytes.now from))
        out.old lines.old pen out.new lines.new result }
{
    if is_tautology(bytes, from, row) {
        return put_change(lines, pen, clause, Cause::Tautology, 0);
    }
    if first < clause {
        return put_change(lines, pen, clause, Cause::Repeat, first);
    }
    put_clause(bytes, from, clause, out, lines, row, pen)
}
