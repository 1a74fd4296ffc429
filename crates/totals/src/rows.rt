// The totals of every node under a set: clauses and literals, for each sign.
ghost use Rattle.std.specs.Prelude.{◌≡◌, ◌<◌};
ghost use Rattle.formula.specs.Tables.{most_nodes, node_at, node_count, nodes_of};
ghost use Rattle.clausal.specs.Clauses.{no_row, row_by, unit_row};
ghost use Rattle.clausal.specs.Totals.{capped};
ghost use Rattle.totals.specs.Inner.Columns.{blank, row_in, child_in, row_next, Ready, Fillable};
ghost use Rattle.totals.specs.Inner.Rowed.{rowed, as_row};

use capped::total::{ClauseTotal, LiteralTotal, Total};
use formula::node::{Kind, MOST_NODES, NODE_BYTES, Node, node_at};
use marks::set::is_renamed;

// The totals of P and of N of a node.
#[derive(Clone, Copy)]
pub struct Row {
    pub p: Total,
    pub n: Total,
}

impl Row {
    // A node that is none of a table.
    fn none() -> Row
        ensures { result ≡ as_row (no_row capped) }
    {
        Row {
            p: Total::none(),
            n: Total::none(),
        }
    }

    // A variable: one clause of one literal for either sign.
    fn unit() -> Row
        ensures { result ≡ as_row (unit_row capped 0) }
    {
        Row {
            p: Total::unit(),
            n: Total::unit(),
        }
    }
}

// The totals of P and of N of every node, in columns: clauses and literals, each for both signs.
#[derive(Drop)]
pub struct Columns {
    pub clauses: [[u16; MOST_NODES]; 2],
    pub literals: [[u32; MOST_NODES]; 2],
}

// The rule of a node: `x` and `y` are its children's rows.
fn row_by(node: Node, x: Row, y: Row) -> Row
    ensures { result ≡ as_row (row_by capped node.kind node.a (rowed x) (rowed y)) }
{
    // As one value each, a child's totals would be packed and unpacked at every node.
    let xp = x.p;
    let xn = x.n;
    let yp = y.p;
    let yn = y.n;
    match node.kind {
        Kind::False => Row {
            p: Total::empty(),
            n: Total::none(),
        },
        Kind::True => Row {
            p: Total::none(),
            n: Total::empty(),
        },
        Kind::Symbol => Row::unit(),
        Kind::Not => Row { p: xn, n: xp },
        Kind::And => Row {
            p: xp.cat(yp),
            n: xn.join(yn),
        },
        Kind::Or => Row {
            p: xp.join(yp),
            n: xn.cat(yn),
        },
        Kind::Implies => Row {
            p: xn.join(yp),
            n: xp.cat(yn),
        },
        Kind::Equivalent => Row {
            p: xn.join(yp).cat(yn.join(xp)),
            n: xn.join(yn).cat(xp.join(yp)),
        },
        Kind::Unknown => Row::none(),
    }
}

impl Columns {
    // Columns of zeros, before any row is filled in.
    pub fn blank() -> Columns
        ensures { result ≡ blank }
    {
        Columns {
            clauses: [[0; MOST_NODES]; 2],
            literals: [[0; MOST_NODES]; 2],
        }
    }

    // The row of node `i`.
    pub fn row_at(&self, i: usize) -> Row
        requires { i < most_nodes }
        ensures { result ≡ as_row (row_in self.now.clauses self.now.literals i) }
    {
        let p = Total {
            clauses: ClauseTotal {
                n: self.clauses[0][i],
            },
            literals: LiteralTotal {
                n: self.literals[0][i],
            },
        };
        let n = Total {
            clauses: ClauseTotal {
                n: self.clauses[1][i],
            },
            literals: LiteralTotal {
                n: self.literals[1][i],
            },
        };
        Row { p, n }
    }

    // The node `at` as a child of node `i`: a renamed node is seen as its helper.
    fn child(&self, set: &[u8], i: usize, at: usize) -> Row
        requires { i < most_nodes }
        ensures { result ≡ as_row (child_in set.now self.now.clauses self.now.literals i at) }
    {
        if is_renamed(set, at) {
            return Row::unit();
        }
        if at < i {
            return self.row_at(at);
        }
        Row::none()
    }

    // The row of node `i`, from the rows before it.
    fn row_next(&self, table: &[u8], set: &[u8], i: usize) -> Row
        requires i_bound { i < node_count table.now }
        requires i_lt_most_nodes { i < most_nodes }
        ensures { result ≡ as_row (row_next (node_at table.now i) set.now self.now.clauses
            self.now.literals i) }
    {
        let node = node_at(table, i);
        let x = self.child(set, i, node.a);
        let y = self.child(set, i, node.b);
        row_by(node, x, y)
    }

    // Fills in the rows of the nodes from `from` on, under a set; those below stand.
    pub fn fill(&mut self, table: &[u8], set: &[u8], from: usize)
        requires { Fillable table.now set.now from self.old.clauses self.old.literals }
        ensures { Ready set.now (nodes_of table.now) (node_count table.now) self.new.clauses
            self.new.literals }
    {
        for i in from..table.len() / NODE_BYTES {
            let row = self.row_next(table, set, i);
            self.clauses[0][i] = row.p.clauses.n;
            self.clauses[1][i] = row.n.clauses.n;
            self.literals[0][i] = row.p.literals.n;
            self.literals[1][i] = row.n.literals.n;
        }
    }
}
