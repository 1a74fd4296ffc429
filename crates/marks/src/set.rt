// Sets of renamed nodes: which nodes may be renamed, and the check of a lent set, refusal 4.
ghost use Rattle.std.specs.Prelude.{◌≡◌, ◌<◌, length};
ghost use Rattle.marks.specs.Inner.Held.{Marked, MarkedAt};
ghost use Rattle.formula.specs.Tables.{nodes_of};
ghost use Rattle.marks.specs.Sets.{renamed, operator, reached, may_rename, byte_right, set_checked};

use crate::mark::{Mark, Marks, read};
use answer::{Accepted, Answer, Refusal};
use formula::node::{Kind, NODE_BYTES, node_at};

// Whether node `i` is renamed.
pub fn is_renamed(set: &[u8], i: usize) -> bool
    ensures { result ≡ renamed set.now i }
{
    i < set.len() && set[i] == 1
}

// Whether a kind is one of 3 to 7.
fn is_operator(kind: Kind) -> bool
    ensures { result ≡ operator kind }
{
    matches!(
        kind,
        Kind::Not | Kind::And | Kind::Or | Kind::Implies | Kind::Equivalent
    )
}

// Whether a node with this mark is reached.
fn is_reached(m: Mark) -> bool
    ensures { result ≡ reached m }
{
    m.positive || m.negative
}

// Whether node `i` of a table may be renamed; `marks` are the marks of its nodes.
pub fn may_rename(table: &[u8], marks: &Marks, i: usize) -> bool
    requires { MarkedAt table.now marks.now i }
    ensures { result ≡ may_rename (nodes_of table.now) i }
{
    is_operator(node_at(table, i).kind)
        && is_reached(read(marks, i))
        && i + 1 != table.len() / NODE_BYTES
}

// Whether the byte of node `i` is right: 0, or 1 where the node may be renamed.
fn is_byte_right(table: &[u8], marks: &Marks, set: &[u8], i: usize) -> bool
    requires marked_at { MarkedAt table.now marks.now i }
    requires i_in_bounds { i < length set.now }
    ensures { result ≡ byte_right (nodes_of table.now) set.now i }
{
    match set[i] {
        0 => true,
        1 => may_rename(table, marks, i),
        _ => false,
    }
}

// Checks a set for a checked table; `marks` are the marks of the table's nodes.
pub fn check(table: &[u8], marks: &Marks, set: &[u8]) -> Answer
    requires { Marked table.now marks.now }
    ensures { result ≡ set_checked (nodes_of table.now) set.now }
{
    let count = table.len() / NODE_BYTES;
    if set.len() != count {
        return Err(Refusal::Set { node: count as u32 });
    }
    for i in 0..count {
        if !is_byte_right(table, marks, set, i) {
            return Err(Refusal::Set { node: i as u32 });
        }
    }
    Ok(Accepted {
        first: 0,
        second: 0,
    })
}
