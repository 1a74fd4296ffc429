// The parts of the output, one after the other, and the part in which a clause stands.
ghost use Rattle.std.specs.Prelude.{◌≡◌, ◌-◌, ◌<◌, ◌≤◌};
ghost use Rattle.formula.specs.Tables.{most_nodes};
ghost use Rattle.origin.specs.Inner.Spots.{half_count, count_at, onward_of, sign_of, Sought, Stood};

use marks::mark::{Marks, halves_of, read};
use marks::set::is_renamed;
use totals::rows::Columns;
use walk::count::own_count;

#[derive(Clone, Copy)]
pub enum Direction {
    // The root part.
    Root,
    // The half from helper to body.
    Down,
    // The half from body to helper.
    Up,
}

impl Direction {
    // Whether a part has the list of a node for a positive sign.
    pub fn is_positive(self) -> bool
        ensures { result ≡ sign_of self }
    {
        matches!(self, Direction::Root | Direction::Down)
    }
}

// A clause of a part: the part's direction and node, and the clause's number in it.
#[derive(Clone, Copy)]
pub struct Spot {
    pub direction: Direction,
    pub node: usize,
    pub number: usize,
}

// How many clauses a half of a definition has: none where the node is not renamed, or has no such half.
fn half(set: &[u8], columns: &Columns, node: usize, has: bool, sign: bool) -> usize
    requires { node < most_nodes }
    ensures { result ≡ half_count set.now columns.now.clauses node has sign }
{
    if is_renamed(set, node) && has {
        own_count(columns, node, sign)
    } else {
        0
    }
}

// How many clauses a part has; a part that the output does not have has none.
fn count(marks: &Marks, set: &[u8], columns: &Columns, spot: Spot) -> usize
    requires { spot.node < most_nodes }
    ensures { result ≡ count_at set.now marks.now columns.now.clauses spot.direction spot.node }
{
    let halves = halves_of(read(marks, spot.node));
    match spot.direction {
        Direction::Root => own_count(columns, spot.node, true),
        Direction::Down => half(set, columns, spot.node, halves.down, true),
        Direction::Up => half(set, columns, spot.node, halves.up, false),
    }
}

// The same clause, counted from the part behind; `each` clauses stand in this one.
fn onward(spot: Spot, each: usize) -> Spot
    requires { (spot.node < most_nodes) × (each ≤ spot.number) }
    ensures { result ≡ onward_of spot.direction spot.node (spot.number - each) }
{
    let number = spot.number - each;
    match spot.direction {
        Direction::Root => Spot {
            direction: Direction::Down,
            node: 0,
            number,
        },
        Direction::Down => Spot {
            direction: Direction::Up,
            node: spot.node,
            number,
        },
        Direction::Up => Spot {
            direction: Direction::Down,
            node: spot.node + 1,
            number,
        },
    }
}

// The part in which a clause stands, from a part before it on.
pub fn find(marks: &Marks, set: &[u8], columns: &Columns, from: Spot) -> Spot
    requires { Sought set.now marks.now columns.now.clauses from }
    ensures { Stood set.now marks.now columns.now.clauses from result }
{
    let mut spot = from;
    loop {
        let each = count(marks, set, columns, spot);
        if spot.number < each {
            return spot;
        }
        spot = onward(spot, each);
    }
}
