// The line of a clause: where it comes from, and the names of its literals.
ghost use Rattle.std.specs.Prelude.{cond, true, [], ◌∷◌, ◌≡◌, ◌-◌, ◌<◌};
ghost use Rattle.formula.specs.Tables.{nodes_of};
ghost use Rattle.names.specs.Inner.Notes.{Known};
ghost use Rattle.clausal.specs.Clauses.{renaming};
ghost use Rattle.walk.specs.Inner.Lists.{names_in, own_clause};
ghost use Rattle.parts.specs.Inner.Parts.{helper_literal};
ghost use Rattle.origin.specs.Inner.Spots.{direction_of};
ghost use Rattle.origin.specs.Origins.{direction_word};
ghost use Rattle.origin.specs.Inner.Grounds.{spot_clause, spot_line};
ghost use Rattle.origin.specs.Inner.Lines.{lists_of, named, field_text, source_text, literals_text, lines_from};
ghost use Rattle.origin.specs.Inner.Lines.{Voiced, Spoken, Spotted, Tellable};
ghost use Rattle.origin.specs.Inner.Pens.{Standing, Drawn};
ghost use Rattle.origin.specs.Inner.Ways.{as_literal, Startable};

use crate::literal::{Literal, Ways, first, next};
use crate::part::{Direction, Spot, find};
use crate::pen::{Pen, put, put_decimal};
use marks::mark::Marks;
use names::lookup::Voices;
use walk::nodes::Nodes;
use walk::step::Way;

// The numbers of some clauses: from one to before another.
#[derive(Clone, Copy)]
pub struct Span {
    pub from: usize,
    pub end: usize,
}

// Puts a number in decimal and a tab.
fn put_field(out: &mut [u8], pen: Pen, number: u32) -> Pen
    requires { Standing pen out.old }
    ensures { Drawn (field_text number) out.old pen out.new result }
{
    let digits = put_decimal(out, pen, number);
    put(out, digits, b"\t")
}

// Puts the word of a direction.
fn put_direction(out: &mut [u8], pen: Pen, direction: Direction) -> Pen
    requires { Standing pen out.old }
    ensures { Drawn (direction_word (direction_of direction)) out.old pen out.new result }
{
    match direction {
        Direction::Root => put(out, pen, b"root"),
        Direction::Down => put(out, pen, b"down"),
        Direction::Up => put(out, pen, b"up"),
    }
}

// Puts the fields before the names: the clause's number, the origin node and its helper, the direction, the number in the part.
fn put_source(out: &mut [u8], pen: Pen, k: u32, helper: u32, spot: Spot) -> Pen
    requires standing { Standing pen out.old }
    requires node_bound { (spot.node < 65_536) × (spot.number < 65_536) }
    ensures { Drawn (source_text k helper spot) out.old pen out.new result }
{
    let clause = put_field(out, pen, k);
    let node = put_field(out, clause, spot.node as u32);
    let named = put_field(out, node, helper);
    let word = put_direction(out, named, spot.direction);
    let tab = put(out, word, b"\t");
    put_decimal(out, tab, spot.number as u32)
}

// Puts what stands before a name: a tab, and `!` for a negated literal.
fn put_sign(out: &mut [u8], pen: Pen, plain: bool) -> Pen
    requires { Standing pen out.old }
    ensures { Drawn (9 ∷ cond plain [] (33 ∷ [])) out.old pen out.new result }
{
    if plain {
        put(out, pen, b"\t")
    } else {
        put(out, pen, b"\t!")
    }
}

// Puts the name of a literal's variable, as a part of its list, with what stands before it.
fn put_literal(voices: &mut Voices, literal: Literal, out: &mut [u8], pen: Pen) -> Pen
    requires { Voiced voices.old (as_literal literal ∷ []) out.old pen }
    ensures { Spoken (literals_text (named (lists_of voices.old)) (as_literal literal ∷ [])) (lists_of voices.old) out.old pen
        voices.new out.new result }
{
    let name = voices.lookup(literal.variable as usize);
    let sign = put_sign(out, pen, literal.plain);
    put(out, sign, name)
}

// The same for the literal of a helper, where it stands here and there is one.
fn put_helper(
    voices: &mut Voices,
    here: bool,
    plain: bool,
    helper: u32,
    out: &mut [u8],
    pen: Pen,
) -> Pen
    requires { Voiced voices.old (helper_literal here plain helper) out.old pen }
    ensures { Spoken (literals_text (named (lists_of voices.old)) (helper_literal here plain helper)) (lists_of voices.old)
        out.old pen voices.new out.new result }
{
    if !here || helper == 0 {
        return pen;
    }
    let literal = Literal {
        plain,
        variable: helper,
    };
    put_literal(voices, literal, out, pen)
}

// Puts the literals of a clause of a node's own list.
fn put_own(nodes: &Nodes, voices: &mut Voices, way: Way, out: &mut [u8], pen: Pen) -> Pen
    requires startable { Startable nodes.now way }
    requires voiced { Voiced voices.old (own_clause nodes.now way) out.old pen }
    ensures { Spoken (literals_text (named (lists_of voices.old)) (own_clause nodes.now way)) (lists_of voices.old) out.old pen
        voices.new out.new result }
{
    let mut ways = Ways::new();
    let mut next_pen = pen;
    let mut found = first(nodes, &mut ways, way);
    while let Some(literal) = found {
        next_pen = put_literal(voices, literal, out, next_pen);
        found = next(nodes, &mut ways);
    }
    next_pen
}

// Puts the literals of a clause of a part, the literal of the node's helper among them.
fn put_clause(nodes: &Nodes, voices: &mut Voices, spot: Spot, out: &mut [u8], pen: Pen) -> Pen
    requires { Spotted nodes.now voices.old spot out.old pen }
    ensures { Spoken (literals_text (named (lists_of voices.old))
        (spot_clause (names_in nodes.now.helpers.now) (nodes_of nodes.now.table.now) spot)) (lists_of voices.old) out.old pen
        voices.new out.new result }
{
    let way = Way {
        node: spot.node,
        sign: spot.direction.is_positive(),
        k: spot.number,
    };
    let helper = nodes.helpers[way.node];
    let front = put_helper(voices, way.sign, false, helper, out, pen);
    let own = put_own(nodes, voices, way, out, front);
    put_helper(voices, !way.sign, true, helper, out, own)
}

// Puts the line of clause k, which stands at a spot.
fn put_line(nodes: &Nodes, voices: &mut Voices, k: u32, spot: Spot, out: &mut [u8], pen: Pen) -> Pen
    requires { Spotted nodes.now voices.old spot out.old pen }
    ensures { Spoken (spot_line (names_in nodes.now.helpers.now) (nodes_of nodes.now.table.now) (named (lists_of voices.old)) k spot)
        (lists_of voices.old) out.old pen voices.new out.new result }
{
    let source = put_source(out, pen, k, nodes.helpers[spot.node], spot);
    let names = put_clause(nodes, voices, spot, out, source);
    put(out, names, b"\n")
}

// Puts the lines of some clauses.
pub fn put_lines(
    nodes: &Nodes,
    marks: &Marks,
    set: &[u8],
    voices: &mut Voices,
    span: Span,
    out: &mut [u8],
    writing: bool,
) -> Pen
    requires tellable { Tellable nodes.now marks.now set.now (lists_of voices.old) span }
    requires known { Known voices.old }
    ensures { Spoken (lines_from (named (lists_of voices.old)) (renaming voices.old.options set.now)
        (nodes_of nodes.now.table.now) span.from (span.end - span.from)) (lists_of voices.old) out.old
        (record { at = 0; fits = true; writing = writing }) voices.new out.new result }
{
    let mut pen = Pen {
        at: 0,
        fits: true,
        writing,
    };
    let mut spot = Spot {
        direction: Direction::Root,
        node: set.len() - 1,
        number: span.from,
    };
    for k in span.from..span.end {
        let stands = find(marks, set, nodes.columns, spot);
        pen = put_line(nodes, voices, k as u32, stands, out, pen);
        spot = Spot {
            number: stands.number + 1,
            ..stands
        };
    }
    pen
}
