// Writing the output, part by part.
ghost use Rattle.std.specs.Prelude.{◌≡◌, length};
ghost use denote.Ref.{at_last};
ghost use Rattle.laws.specs.Lists.{splice};
ghost use Rattle.formula.specs.Tables.{nodes_of};
ghost use Rattle.clausal.specs.Clauses.{literal_bytes, clause_bytes, clauses_bytes};
ghost use Rattle.walk.specs.Inner.Lists.{names_in, own_clause, shown_all};
ghost use Rattle.parts.specs.Inner.Parts.{helper_literal, around, half, defined_by, defined_to, all_parts, ClauseDue, PartDue};
ghost use Rattle.parts.specs.Inner.Parts.{DefinitionDue, DefinitionsDue, OutputDue};
ghost use Rattle.walk.specs.Inner.Written.{Fits, Put};

use answer::put;
use clausebytes::word::word;
use formula::node::NODE_BYTES;
use marks::mark::{Marks, halves_of, read};
use walk::clause::write_own;
use walk::count::own_count;
use walk::nodes::Nodes;
use walk::step::Way;

// Writes the literal of a helper, where it stands here and there is one, and returns the next place.
fn put_helper(out: &mut &mut [u8], at: usize, here: bool, plain: bool, helper: u32) -> usize
    requires { Fits (shown_all literal_bytes (helper_literal here plain helper)) out.old.now at }
    ensures { Put (shown_all literal_bytes (helper_literal here plain helper)) out.old at result out.new }
{
    if !here || helper == 0 {
        return at;
    }
    put(out, at, word(plain, helper));
    at + 4
}

// Writes a clause of a part, with the literal of the node's helper and the closing zero.
fn write_clause(nodes: &Nodes, out: &mut &mut [u8], at: usize, way: Way) -> usize
    requires { ClauseDue nodes.now way out.old.now at }
    ensures { Put (clause_bytes (around (names_in nodes.now.helpers.now way.node) way.sign (own_clause nodes.now way)))
        out.old at result out.new }
{
    let helper = nodes.helpers[way.node];
    let first = put_helper(out, at, way.sign, false, helper);
    let second = write_own(nodes, out, first, way.node, way.sign, way.k);
    let third = put_helper(out, second, !way.sign, true, helper);
    put(out, third, 0);
    third + 4
}

// Writes a part, where the output has it: each clause of a node's own list for a sign.
fn write_part(
    nodes: &Nodes,
    out: &mut &mut [u8],
    at: usize,
    has: bool,
    node: usize,
    sign: bool,
) -> usize
    requires { PartDue nodes.now has node sign out.old.now at }
    ensures { Put (clauses_bytes (half (names_in nodes.now.helpers.now) (nodes_of nodes.now.table.now) has node sign))
        out.old at result out.new }
{
    if !has {
        return at;
    }
    let mut next = at;
    for k in 0..own_count(nodes.columns, node, sign) {
        next = write_clause(nodes, out, next, Way { node, sign, k });
    }
    next
}

// Writes the definition of a node, where it is renamed: the half down, then the half up.
fn write_definition(
    nodes: &Nodes,
    marks: &Marks,
    out: &mut &mut [u8],
    at: usize,
    node: usize,
) -> usize
    requires { DefinitionDue nodes.now marks.now node out.old.now at }
    ensures { Put (clauses_bytes (defined_by (names_in nodes.now.helpers.now) (nodes_of nodes.now.table.now) node))
        out.old at result out.new }
{
    if nodes.helpers[node] == 0 {
        return at;
    }
    let halves = halves_of(read(marks, node));
    let next = write_part(nodes, out, at, halves.down, node, true);
    write_part(nodes, out, next, halves.up, node, false)
}

// Writes the definitions by rising node number, and returns the next place.
fn write_definitions(nodes: &Nodes, marks: &Marks, out: &mut &mut [u8], at: usize) -> usize
    requires { DefinitionsDue nodes.now marks.now out.old.now at }
    ensures { Put (clauses_bytes
        (defined_to (names_in nodes.now.helpers.now) (nodes_of nodes.now.table.now) (length (nodes_of nodes.now.table.now))))
        out.old at result out.new }
{
    let mut next = at;
    for i in 0..nodes.table.len() / NODE_BYTES {
        next = write_definition(nodes, marks, out, next, i);
    }
    next
}

// Writes the whole output from the buffer's start on: the root part, then the definitions.
fn write_parts(nodes: &Nodes, marks: &Marks, out: &mut &mut [u8]) -> usize
    requires { OutputDue nodes.now marks.now out.old.now }
    ensures { Put (clauses_bytes (all_parts (names_in nodes.now.helpers.now) (nodes_of nodes.now.table.now)))
        out.old 0 result out.new }
{
    let root = nodes.table.len() / NODE_BYTES - 1;
    let next = write_part(nodes, out, 0, true, root, true);
    write_definitions(nodes, marks, out, next)
}

// The same for a buffer that is lent, which is given back.
pub fn write_all<'a>(nodes: &Nodes, marks: &Marks, out: &'a mut [u8]) -> &'a mut [u8]
    requires { OutputDue nodes.now marks.now out.old }
    ensures { result ≡ at_last out.entry
        (splice out.old 0 (clauses_bytes (all_parts (names_in nodes.now.helpers.now) (nodes_of nodes.now.table.now)))) }
{
    let mut buffer = out;
    write_parts(nodes, marks, &mut buffer);
    let written = buffer;
    written
}
