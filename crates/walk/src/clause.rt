// Writing the literals of one clause: each node through its children, whose numbers are lower.
ghost use Rattle.clausal.specs.Clauses.{literal_bytes};
ghost use Rattle.walk.specs.Inner.Lists.{own_at, own_clause, seen_at, seen_clause, shown_all};
ghost use Rattle.walk.specs.Inner.Steps.{way};
ghost use Rattle.walk.specs.Inner.Written.{Due, Put};

use crate::nodes::Nodes;
use crate::step::{Step, lead, unpack};
use answer::put;
use clausebytes::word::word;

// Writes clause k of the list of a node for a sign, as it is seen as a child, from `at` on: the literal of its helper, or the
// clause of its own list. Returns the next place. The parts of a way are parameters of their own, since they stand in registers
// then, and a way in the frame of the caller.
#[cycle(write_write_own)]
fn write(nodes: &Nodes, out: &mut &mut [u8], at: usize, node: usize, sign: bool, k: usize) -> usize
    requires { Due nodes.now (seen_at nodes.now node sign) (way node sign k) out.old.now at }
    ensures { Put (shown_all literal_bytes (seen_clause nodes.now (way node sign k))) out.old at result out.new }
{
    let helper = nodes.helpers[node];
    if helper != 0 {
        put(out, at, word(sign, helper));
        return at + 4;
    }
    write_own(nodes, out, at, node, sign, k)
}

// Writes clause k of a node's own list for a sign from `at` on, and returns the next place. The node number falls at each call;
// quotient and remainder choose among the children's clauses.
#[cycle(write_write_own)]
pub fn write_own(
    nodes: &Nodes,
    out: &mut &mut [u8],
    at: usize,
    node: usize,
    sign: bool,
    k: usize,
) -> usize
    requires { Due nodes.now (own_at nodes.now node sign) (way node sign k) out.old.now at }
    ensures { Put (shown_all literal_bytes (own_clause nodes.now (way node sign k))) out.old at result out.new }
{
    match unpack(lead(nodes, node, sign, k)) {
        Step::Nothing => at,
        Step::Literal(variable) => {
            put(out, at, word(sign, variable));
            at + 4
        }
        Step::Left(child) | Step::Right(child) => write(
            nodes, out, at, child.node, child.sign, child.k,
        ),
        Step::Both(left, right) => {
            let next = write(nodes, out, at, left.node, left.sign, left.k);
            write(nodes, out, next, right.node, right.sign, right.k)
        }
    }
}
