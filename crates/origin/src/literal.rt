// The literals of one clause, one after the other: ways that wait stand in an array, and the last of them is gone first.
ghost use Rattle.std.specs.Prelude.{◌≡◌, ◌++◌, ◌+◌, ◌<◌};
ghost use Rattle.walk.specs.Inner.Lists.{own_clause, seen_clause};
ghost use Rattle.walk.specs.Inner.Packed.{Packable};
ghost use Rattle.origin.specs.Inner.Ways.{blank, Pushed, Popped, waiting_of, weight, load_of};
ghost use Rattle.origin.specs.Inner.Ways.{Shaped, Waiting, Startable, Openable, Goable, Opened, FirstOf};

use walk::nodes::Nodes;
use walk::step::{Step, Way, lead, pack_way, unpack, unpack_way};

// A literal as it is found: a variable, plain or negated.
#[derive(Clone, Copy)]
pub struct Literal {
    pub plain: bool,
    pub variable: u32,
}

// The ways that wait, each as one number; the last of the first `depth` is the next one to be gone.
#[derive(Drop)]
pub struct Ways {
    pub held: [u32; 1024],
    pub depth: usize,
}

impl Ways {
    // No way waits.
    pub fn new() -> Ways
        ensures { result ≡ blank }
    {
        Ways {
            held: [0; 1024],
            depth: 0,
        }
    }

    // One way more waits.
    fn push(&mut self, way: Way)
        requires packable { Packable way }
        requires depth_bound { self.old.depth < 1024 }
        ensures { Pushed way self.old self.new }
    {
        self.held[self.depth] = pack_way(way);
        self.depth += 1;
    }

    // The way that waits last, which waits no longer.
    fn pop(&mut self) -> Option<Way>
        requires { Shaped self.old }
        ensures { Popped self.old result self.new }
    {
        if self.depth == 0 {
            return None;
        }
        self.depth -= 1;
        Some(unpack_way(self.held[self.depth]))
    }
}

// One step into a clause of a node's own list: a literal is found, or lower ways wait.
fn open_own(nodes: &Nodes, ways: &mut Ways, way: Way) -> Option<Literal>
    requires { Openable nodes.now ways.old way }
    ensures { Opened nodes.now (own_clause nodes.now way ++ waiting_of nodes.now ways.old)
        (weight way.node + load_of ways.old) result ways.new }
{
    match unpack(lead(nodes, way.node, way.sign, way.k)) {
        Step::Nothing => None,
        Step::Literal(variable) => Some(Literal {
            plain: way.sign,
            variable,
        }),
        Step::Left(child) | Step::Right(child) => {
            ways.push(child);
            None
        }
        Step::Both(left, right) => {
            ways.push(right);
            ways.push(left);
            None
        }
    }
}

// A way is gone: a helper's literal, or a step into the node's own list.
fn open(nodes: &Nodes, ways: &mut Ways, way: Way) -> Option<Literal>
    requires { Goable nodes.now ways.old way }
    ensures { Opened nodes.now (seen_clause nodes.now way ++ waiting_of nodes.now ways.old)
        (weight way.node + load_of ways.old) result ways.new }
{
    let helper = nodes.helpers[way.node];
    if helper != 0 {
        return Some(Literal {
            plain: way.sign,
            variable: helper,
        });
    }
    open_own(nodes, ways, way)
}

// Goes ways until a literal is found, or none waits.
pub fn next(nodes: &Nodes, ways: &mut Ways) -> Option<Literal>
    requires { Waiting nodes.now ways.old }
    ensures { FirstOf nodes.now (waiting_of nodes.now ways.old) result ways.new }
{
    while let Some(way) = ways.pop() {
        if let Some(literal) = open(nodes, ways, way) {
            return Some(literal);
        }
    }
    None
}

// The first literal of a clause of a node's own list; the others wait.
pub fn first(nodes: &Nodes, ways: &mut Ways, way: Way) -> Option<Literal>
    requires startable { Startable nodes.now way }
    requires none { ways.old ≡ blank }
    ensures { FirstOf nodes.now (own_clause nodes.now way) result ways.new }
{
    if let Some(literal) = open_own(nodes, ways, way) {
        return Some(literal);
    }
    next(nodes, ways)
}
