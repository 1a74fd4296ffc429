// How clause k of a node is found through its children.
ghost use Rattle.std.specs.Prelude.{◌≡◌, ◌<◌};
ghost use Rattle.formula.specs.Tables.{most_nodes, node_at};
ghost use Rattle.walk.specs.Inner.Lists.{signed, pair_in};
ghost use Rattle.walk.specs.Inner.Steps.{count_in, cat_step, join_step, joins_step, step_by};
ghost use Rattle.walk.specs.Inner.Packed.{packed, way_of, Packable, packed_step, step_of, Made, Led};
ghost use Rattle.walk.specs.Inner.Steps.{lead_step, Walkable, Leadable};

use crate::count::own_count;
use crate::nodes::Nodes;
use formula::node::{Kind, Node, node_at};

// Clause k of the list of a node for a sign, as it is seen as a child.
#[derive(Clone, Copy)]
pub struct Way {
    pub node: usize,
    pub sign: bool,
    pub k: usize,
}

// One step of the writer: what the literals of a clause are made of.
#[derive(Clone, Copy)]
pub enum Step {
    // There is none.
    Nothing,
    // The literal of a variable.
    Literal(u32),
    // A clause of the left child.
    Left(Way),
    // A clause of the right child.
    Right(Way),
    // A clause of the left child, then a clause of the right child.
    Both(Way, Way),
}

// How many literals the list of a node has for a sign.
fn own_literals(nodes: &Nodes, node: usize, sign: bool) -> u32
    requires { node < most_nodes }
    ensures { result ≡ signed sign (pair_in nodes.now.columns.now.literals node) }
{
    if sign {
        nodes.columns.literals[0][node]
    } else {
        nodes.columns.literals[1][node]
    }
}

// How many clauses a child's list has: one where the child is seen as its helper.
fn count(nodes: &Nodes, node: usize, sign: bool) -> usize
    requires { node < most_nodes }
    ensures { (result ≡ count_in nodes.now.columns.now.clauses nodes.now.helpers.now node sign) × (result < 65_536) }
{
    if nodes.helpers[node] != 0 {
        1
    } else {
        own_count(nodes.columns, node, sign)
    }
}

// A clause of one list followed by another: by subtraction.
fn in_cat(nodes: &Nodes, a: usize, x: bool, b: usize, y: bool, k: usize) -> Step
    requires { a < most_nodes }
    ensures { result ≡ cat_step nodes.now.columns.now.clauses nodes.now.helpers.now a x b y k }
{
    let first = count(nodes, a, x);
    if k < first {
        Step::Left(Way {
            node: a,
            sign: x,
            k,
        })
    } else {
        Step::Right(Way {
            node: b,
            sign: y,
            k: k - first,
        })
    }
}

// A clause of the join of two lists: by quotient and remainder.
fn in_join(nodes: &Nodes, a: usize, x: bool, b: usize, y: bool, k: usize) -> Step
    requires { b < most_nodes }
    ensures { result ≡ join_step nodes.now.columns.now.clauses nodes.now.helpers.now a x b y k }
{
    let each = count(nodes, b, y);
    if each == 0 {
        return Step::Nothing;
    }
    let left = Way {
        node: a,
        sign: x,
        k: k / each,
    };
    let right = Way {
        node: b,
        sign: y,
        k: k % each,
    };
    Step::Both(left, right)
}

// A clause of an equivalence: of the first join, or of the second.
fn in_joins(nodes: &Nodes, a: usize, b: usize, sign: bool, k: usize) -> Step
    requires a_lt_most_nodes { a < most_nodes }
    requires b_lt_most_nodes { b < most_nodes }
    ensures { result ≡ joins_step nodes.now.columns.now.clauses nodes.now.helpers.now a b sign k }
{
    let first = count(nodes, a, false) * count(nodes, b, sign);
    if k < first {
        in_join(nodes, a, false, b, sign, k)
    } else if sign {
        in_join(nodes, b, false, a, true, k - first)
    } else {
        in_join(nodes, a, true, b, true, k - first)
    }
}

// A clause of a node's own list for a sign, by its kind.
fn by_kind(nodes: &Nodes, node: Node, sign: bool, k: usize) -> Step
    requires { Walkable node }
    ensures { result ≡ step_by node.kind nodes.now.columns.now.clauses nodes.now.helpers.now node.a node.b sign k }
{
    let a = node.a;
    let b = node.b;
    match node.kind {
        Kind::False | Kind::True | Kind::Unknown => Step::Nothing,
        Kind::Symbol => Step::Literal(a as u32),
        Kind::Not => Step::Left(Way {
            node: a,
            sign: !sign,
            k,
        }),
        Kind::And => {
            if sign {
                in_cat(nodes, a, true, b, true, k)
            } else {
                in_join(nodes, a, false, b, false, k)
            }
        }
        Kind::Or => {
            if sign {
                in_join(nodes, a, true, b, true, k)
            } else {
                in_cat(nodes, a, false, b, false, k)
            }
        }
        Kind::Implies => {
            if sign {
                in_join(nodes, a, false, b, true, k)
            } else {
                in_cat(nodes, a, true, b, false, k)
            }
        }
        Kind::Equivalent => in_joins(nodes, a, b, sign, k),
    }
}

// The step to a clause of a node's own list: nothing where the list has no literal, else by the node's kind.
fn lead_step(nodes: &Nodes, way: Way) -> Step
    requires { Leadable nodes.now.table.now way.node }
    ensures { result ≡ lead_step (node_at nodes.now.table.now way.node) nodes.now.columns.now.clauses nodes.now.columns.now.literals
        nodes.now.helpers.now way.node way.sign way.k }
{
    if own_literals(nodes, way.node, way.sign) == 0 {
        return Step::Nothing;
    }
    by_kind(nodes, node_at(nodes.table, way.node), way.sign, way.k)
}

// A way as one number.
pub fn pack_way(way: Way) -> u32
    requires { Packable way }
    ensures { result ≡ packed way }
{
    (way.k as u32 * 1024 + way.node as u32) * 2 + u32::from(way.sign)
}

// The way that a number stands for.
pub fn unpack_way(number: u32) -> Way
    ensures { result ≡ way_of number }
{
    Way {
        node: (number / 2 % 1024) as usize,
        sign: number % 2 == 1,
        k: (number / 2048) as usize,
    }
}

// A step as one number.
fn pack(step: Step) -> u64
    requires { Made step }
    ensures { result ≡ packed_step step }
{
    match step {
        Step::Nothing => 0,
        Step::Literal(variable) => u64::from(variable) * 8 + 1,
        Step::Left(way) => u64::from(pack_way(way)) * 8 + 2,
        Step::Right(way) => u64::from(pack_way(way)) * 8 + 3,
        Step::Both(left, right) => {
            (u64::from(pack_way(left)) * 134217728 + u64::from(pack_way(right))) * 8 + 4
        }
    }
}

// The step that a number stands for.
pub fn unpack(code: u64) -> Step
    ensures { result ≡ step_of code }
{
    let rest = code / 8;
    let last = unpack_way((rest % 134217728) as u32);
    match code % 8 {
        0 => Step::Nothing,
        1 => Step::Literal((rest % 4294967296) as u32),
        2 => Step::Left(last),
        3 => Step::Right(last),
        _ => Step::Both(unpack_way((rest / 134217728 % 134217728) as u32), last),
    }
}

// The same step as one number, which is handed back in a register. A writer that calls itself unpacks it, and keeps no step in
// its frame.
pub fn lead(nodes: &Nodes, node: usize, sign: bool, k: usize) -> u64
    requires leadable { Leadable nodes.now.table.now node }
    requires k_bound { k < 65_536 }
    ensures { Led (lead_step (node_at nodes.now.table.now node) nodes.now.columns.now.clauses nodes.now.columns.now.literals
        nodes.now.helpers.now node sign k) result }
{
    pack(lead_step(nodes, Way { node, sign, k }))
}
