// The nodes of a formula, stored as far as the table has room.
ghost use Rattle.std.specs.Prelude.{◌≡◌, ◌+◌};
ghost use Rattle.formula.specs.Tables.{node_record};
ghost use Rattle.satfile.specs.Trees.{join_kind, records_from};
ghost use Rattle.satfile.specs.Inner.Reads.{leaf_of, join_of};
ghost use Rattle.satfile.specs.Inner.Parts.{leaf_nodes};
ghost use Rattle.satfile.specs.Inner.Stores.{kind_number, Adds, Roomy, Folding, fold_records, fold_nodes, empty_records, empty_nodes, end_records};
ghost use Rattle.satfile.specs.Inner.Stores.{end_nodes, Ending};

use crate::lead::Group;
use formula::node::{Kind, NODE_BYTES, put_node};

// Stores node i, where the table has room for it.
fn put(table: &mut [u8], i: usize, kind: Kind, a: usize, b: usize)
    ensures { Adds (node_record (kind_number kind) a b) 1 table.old i (i + 1) table.new }
{
    if i < table.len() / NODE_BYTES {
        put_node(table, NODE_BYTES * i, kind as u8, a, b);
    }
}

// Stores a symbol, and the not of a negated one; returns the number of the next node.
pub fn leaf(table: &mut [u8], next: usize, value: u32, negated: bool) -> usize
    requires { Roomy next (leaf_nodes negated) }
    ensures { Adds (records_from next (leaf_of value negated)) (leaf_nodes negated) table.old next result table.new }
{
    put(table, next, Kind::Symbol, value as usize, 0);
    if !negated {
        return next + 1;
    }
    put(table, next + 1, Kind::Not, next, 0);
    next + 2
}

// The kind of the node that joins two members.
fn joining(group: Group) -> Kind
    ensures { kind_number result ≡ join_kind (join_of group) }
{
    match group {
        Group::And => Kind::And,
        _ => Kind::Or,
    }
}

// Joins a member, whose nodes end before `after`, to those before it, which began at `next` and end before `behind`; returns the
// number of the next node. The first member is joined to nothing.
pub fn fold(table: &mut [u8], group: Group, next: usize, behind: usize, after: usize) -> usize
    requires { Folding next behind after }
    ensures { Adds (fold_records group next behind after) (fold_nodes next behind) table.old after result table.new }
{
    if behind == next {
        return after;
    }
    put(table, after, joining(group), behind - 1, after - 1);
    after + 1
}

// Stores the constant of an empty list; returns the number of the next node.
fn empty(table: &mut [u8], next: usize, behind: usize, kind: Kind) -> usize
    requires { Roomy behind 1 }
    ensures { Adds (empty_records (kind_number kind) next behind) (empty_nodes next behind) table.old behind result table.new }
{
    if behind != next {
        return behind;
    }
    put(table, behind, kind, 0, 0);
    behind + 1
}

// Stores what the end of a group adds; returns the number of the next node.
pub fn end(table: &mut [u8], group: Group, next: usize, behind: usize) -> usize
    requires { Ending group behind }
    ensures { Adds (end_records group next behind) (end_nodes group next behind) table.old behind result table.new }
{
    match group {
        Group::And => empty(table, next, behind, Kind::True),
        Group::Or => empty(table, next, behind, Kind::False),
        Group::Not => {
            put(table, behind, Kind::Not, behind - 1, 0);
            behind + 1
        }
        Group::One | Group::Whole => behind,
    }
}
