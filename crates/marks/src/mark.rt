// Polarity marks: whether the root reaches a node positively, negatively, or both ways.
ghost use Rattle.std.specs.Prelude.{◌≡◌, ◌<◌, ◌≤◌};
ghost use Rattle.marks.specs.Inner.Held.{byte_of, held_at, held_more, held_passed, held, Unmarked};
ghost use Rattle.formula.specs.Tables.{most_nodes, nodes_of};
ghost use Rattle.marks.specs.Marks.{joined, turned, doubled, to_a, to_b, marks_of, halves_of};

use formula::node::{Kind, MOST_NODES, NODE_BYTES, Node, node_at};

// The marks of all nodes, a byte a node: 1 where its mark is positive, and 2 more where it is negative.
pub type Marks = [u8; MOST_NODES];

#[derive(Clone, Copy)]
pub struct Mark {
    pub positive: bool,
    pub negative: bool,
}

// Which halves the definition of a renamed node has.
#[derive(Clone, Copy)]
pub struct Halves {
    pub down: bool,
    pub up: bool,
}

// The halves of a node with a mark.
pub fn halves_of(m: Mark) -> Halves
    ensures { result ≡ halves_of m }
{
    Halves {
        down: m.positive,
        up: m.negative,
    }
}

impl Mark {
    // The mark of a node that is not reached.
    const NONE: Mark = Mark {
        positive: false,
        negative: false,
    };

    // The mark of a node that is reached in both ways.
    fn join(self, other: Mark) -> Mark
        ensures { result ≡ joined self other }
    {
        Mark {
            positive: self.positive | other.positive,
            negative: self.negative | other.negative,
        }
    }

    // The mark under a negation.
    fn turned(self) -> Mark
        ensures { result ≡ turned self }
    {
        Mark {
            positive: self.negative,
            negative: self.positive,
        }
    }

    // Both polarities, where the mark has any.
    fn doubled(self) -> Mark
        ensures { result ≡ doubled self }
    {
        self.join(self.turned())
    }

    // What a node of a kind gives to its child a.
    fn to_a(self, kind: Kind) -> Mark
        ensures { result ≡ to_a kind self }
    {
        match kind {
            Kind::And | Kind::Or => self,
            Kind::Not | Kind::Implies => self.turned(),
            Kind::Equivalent => self.doubled(),
            Kind::False | Kind::True | Kind::Symbol | Kind::Unknown => Mark::NONE,
        }
    }

    // What a node of a kind gives to its child b.
    fn to_b(self, kind: Kind) -> Mark
        ensures { result ≡ to_b kind self }
    {
        match kind {
            Kind::And | Kind::Or | Kind::Implies => self,
            Kind::Equivalent => self.doubled(),
            Kind::False | Kind::True | Kind::Symbol | Kind::Not | Kind::Unknown => Mark::NONE,
        }
    }

    // The byte of a mark.
    fn byte(self) -> u8
        ensures { result ≡ byte_of self }
    {
        u8::from(self.positive) + 2 * u8::from(self.negative)
    }
}

// The mark of a node, as an array of marks holds it.
pub fn read(marks: &Marks, i: usize) -> Mark
    requires { i < most_nodes }
    ensures { result ≡ held_at marks.now i }
{
    let b = marks[i];
    Mark {
        positive: b % 2 == 1,
        negative: b / 2 % 2 == 1,
    }
}

// Marks node `i` with `m` too, in an array of the marks of `count` nodes.
fn add(marks: &mut Marks, count: usize, i: usize, m: Mark)
    requires { count ≤ most_nodes }
    ensures { marks.new ≡ held_more count marks.old i m }
{
    if i < count {
        marks[i] = read(marks, i).join(m).byte();
    }
}

// Node `i` passes its mark on to its children.
fn pass(marks: &mut Marks, count: usize, i: usize, node: Node)
    requires i_lt_count { i < count }
    requires count_le_most_nodes { count ≤ most_nodes }
    ensures { marks.new ≡ held_passed count marks.old i node }
{
    let m = read(marks, i);
    add(marks, count, node.a, m.to_a(node.kind));
    add(marks, count, node.b, m.to_b(node.kind));
}

// Marks all nodes of a table: the root is positive, and each node, from the root down, passes its mark on.
pub fn mark_all(table: &[u8], marks: &mut Marks)
    requires { Unmarked table.now marks.old }
    ensures { marks.new ≡ held (marks_of (nodes_of table.now)) }
{
    let count = table.len() / NODE_BYTES;
    marks[count - 1] = 1;
    for i in (0..count).rev() {
        pass(marks, count, i, node_at(table, i));
    }
}
