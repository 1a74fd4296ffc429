// The two passes over the nodes that may be renamed, the highest first: one puts nodes in, the other takes nodes out.
ghost use Rattle.std.specs.Prelude.{[], ◌≡◌, ◌<◌};
ghost use Rattle.formula.specs.Tables.{most_nodes, nodes_of};
ghost use Rattle.answer.specs.Answers.{accepted_with};
ghost use Rattle.clausal.specs.Clauses.{renaming};
ghost use Rattle.clausal.specs.Choosing.{choose};
ghost use Rattle.clausal.specs.Calls.{told, chosen_under, chosen_by};
ghost use Rattle.choose.specs.Inner.Visits.{byte_of, byte_before, lowest, kept_by, small, is_tried, pass_of, Choosable, Passable, Visitable};
ghost use Rattle.choose.specs.Inner.Visits.{Triable, Attempted, Visited};

use crate::bytes::{clear, count_all, put_all};
use answer::{Accepted, Answer, Refusal};
use capped::total::ClauseTotal;
use formula::node::{MOST_NODES, NODE_BYTES};
use marks::mark::{Marks, mark_all};
use marks::set::may_rename;
use totals::rows::Columns;
use totals::trial::trial;
use totals::whole::whole;

// How many nodes are in, and the clause total with them.
#[derive(Clone, Copy)]
pub struct Picked {
    pub picks: u32,
    pub total: ClauseTotal,
}

// What a pass does.
#[derive(Clone, Copy)]
pub enum Way {
    // It puts nodes in, while fewer than the allowance are in.
    Adds { allowance: u32 },
    // It takes nodes out.
    Drops,
}

impl Way {
    // The byte that the pass gives to the nodes that it tries.
    fn byte(self) -> u8
        ensures { result ≡ byte_of self }
    {
        match self {
            Way::Adds { .. } => 1,
            Way::Drops => 0,
        }
    }

    // The byte that such a node has before.
    fn byte_before(self) -> u8
        ensures { result ≡ byte_before self }
    {
        match self {
            Way::Adds { .. } => 0,
            Way::Drops => 1,
        }
    }

    // The lowest node whose definition may count while node `i` is tried. Where nodes are put in, none below `i` is in yet.
    fn lowest(self, i: usize) -> usize
        ensures { result ≡ lowest self i }
    {
        match self {
            Way::Adds { .. } => i,
            Way::Drops => 0,
        }
    }

    // Whether a trial is kept: the total falls, or, where a node is taken out, it does not rise.
    fn keeps(self, before: ClauseTotal, after: ClauseTotal) -> bool
        ensures { result ≡ kept_by self before.n after.n }
    {
        match self {
            Way::Adds { .. } => after.n < before.n,
            Way::Drops => after.n <= before.n,
        }
    }
}

// Whether P and N of node `i` have at most one clause each: to rename such a node never lowers the total.
fn is_small(columns: &Columns, i: usize) -> bool
    requires { i < most_nodes }
    ensures { result ≡ small columns.now.clauses i }
{
    columns.clauses[0][i] < 2 && columns.clauses[1][i] < 2
}

// Whether node `i` is tried: it may be renamed, and where nodes are put in, one more is allowed and it is not small.
fn is_tried(
    table: &[u8],
    marks: &Marks,
    way: Way,
    i: usize,
    picked: Picked,
    set: &[u8],
    columns: &Columns,
) -> bool
    requires { Visitable way table.now marks.now i picked.picks picked.total.n set.now columns.now.clauses columns.now.literals }
    ensures { result ≡ is_tried way (nodes_of table.now) i picked.picks columns.now.clauses }
{
    match way {
        Way::Adds { allowance } => {
            picked.picks < allowance && may_rename(table, marks, i) && !is_small(columns, i)
        }
        Way::Drops => may_rename(table, marks, i),
    }
}

// Tries node `i`, and undoes it where the trial is not kept.
fn attempt(
    table: &[u8],
    marks: &Marks,
    way: Way,
    i: usize,
    picked: Picked,
    set: &mut [u8],
    columns: &mut Columns,
) -> Picked
    requires { Triable way table.now marks.now i picked.picks picked.total.n set.old columns.old.clauses columns.old.literals }
    ensures { Attempted way (nodes_of table.now) i (record { picks = picked.picks; chosen = set.old })
        (record { picks = result.picks; chosen = set.new }) result.total.n columns.new.clauses columns.new.literals }
{
    let total = trial(table, marks, set, way.lowest(i), i, way.byte(), columns);
    if !way.keeps(picked.total, total) {
        set[i] = way.byte_before();
        return picked;
    }
    match way {
        Way::Adds { .. } => Picked {
            picks: picked.picks + 1,
            total,
        },
        Way::Drops => Picked {
            picks: picked.picks - 1,
            total,
        },
    }
}

// Visits node `i`: it goes in, or out, where it is tried and the trial is kept.
fn visit(
    table: &[u8],
    marks: &Marks,
    way: Way,
    i: usize,
    picked: Picked,
    set: &mut [u8],
    columns: &mut Columns,
) -> Picked
    requires { Visitable way table.now marks.now i picked.picks picked.total.n set.old columns.old.clauses columns.old.literals }
    ensures { Visited way (nodes_of table.now) i (record { picks = picked.picks; chosen = set.old })
        (record { picks = result.picks; chosen = set.new }) result.total.n columns.new.clauses columns.new.literals }
{
    if is_tried(table, marks, way, i, picked, set, columns) {
        return attempt(table, marks, way, i, picked, set, columns);
    }
    picked
}

// A pass over all nodes, from the set that it begins with and its picks.
fn pass(table: &[u8], marks: &Marks, way: Way, picks: u32, set: &mut [u8]) -> Picked
    requires { Passable way table.now marks.now picks set.old }
    ensures { record { answer = accepted_with result.picks result.total.n; output = set.new } ≡ told (renaming 0 [])
        (nodes_of table.now) (pass_of way (nodes_of table.now)) }
{
    let count = table.len() / NODE_BYTES;
    let mut columns = Columns::blank();
    columns.fill(table, set, 0);
    let total = whole(table, marks, set, way.lowest(count), &columns).clauses;
    let mut picked = Picked { picks, total };
    for i in (0..count).rev() {
        picked = visit(table, marks, way, i, picked, set, &mut columns);
    }
    picked
}

// Chooses for a table that is right, with its marks, from the empty set. The first pass decides where it ends below the ceiling, or
// where fewer nodes are allowed than may be renamed.
fn choose_marked(table: &[u8], marks: &Marks, allowance: u32, set: &mut [u8]) -> Picked
    requires { Passable (Way.Adds allowance) table.now marks.now 0 set.old }
    ensures { record { answer = accepted_with result.picks result.total.n; output = set.new } ≡ told (renaming 0 [])
        (nodes_of table.now) (choose allowance (renaming 0 []) (nodes_of table.now)) }
{
    let first = pass(table, marks, Way::Adds { allowance }, 0, set);
    if first.total.n < ClauseTotal::CEILING {
        return first;
    }
    let all = count_all(table, marks);
    if allowance < all {
        return first;
    }
    put_all(table, marks, set);
    pass(table, marks, Way::Drops, all, set)
}

// Chooses for a table that is right.
fn choose_under(table: &[u8], allowance: u32, set: &mut [u8]) -> Answer
    requires { Choosable table.now }
    ensures { record { answer = result; output = set.new } ≡ chosen_under 0 (nodes_of table.now) allowance
        set.old }
{
    let count = table.len() / NODE_BYTES;
    if set.len() != count {
        return Err(Refusal::Set { node: count as u32 });
    }
    clear(set);
    let mut marks = [0; MOST_NODES];
    mark_all(table, &mut marks);
    let picked = choose_marked(table, &marks, allowance, set);
    Ok(Accepted {
        first: picked.picks,
        second: u32::from(picked.total.n),
    })
}

// Checks a table, and writes the set of nodes to rename under an allowance: picks and final total are reported.
pub fn choose(table: &[u8], options: u32, allowance: u32, set: &mut [u8]) -> Answer
    ensures { record { answer = result; output = set.new } ≡ chosen_by table.now options allowance
        set.old }
{
    formula::table::check(table, options)?;
    choose_under(table, allowance, set)
}
