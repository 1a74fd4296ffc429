// Measuring: the totals of a formula under a set, so that a host can size its buffer.
ghost use Rattle.std.specs.Prelude.{◌≡◌, length};
ghost use Rattle.formula.specs.Inner.Right.{RightLength};
ghost use Rattle.formula.specs.Tables.{nodes_of};
ghost use Rattle.clausal.specs.Clauses.{renaming};
ghost use Rattle.clausal.specs.Calls.{measured, measured_under};

use crate::prepare::prepare;
use crate::rows::Columns;
use answer::{Accepted, Answer};
use formula::node::MOST_NODES;

// Checks a set for a table that is right, and gives the totals.
fn measure_under(table: &[u8], set: &[u8]) -> Answer
    requires { RightLength (length table.now) }
    ensures { result ≡ measured_under (renaming 0 set.now) (nodes_of table.now) }
{
    let mut marks = [0; MOST_NODES];
    let mut columns = Columns::blank();
    let sum = prepare(table, set, &mut marks, &mut columns)?;
    Ok(Accepted {
        first: u32::from(sum.clauses.n),
        second: sum.literals.n,
    })
}

// Checks a table and a set, and gives the clause and the literal total, each read at its ceiling.
pub fn measure(table: &[u8], options: u32, set: &[u8]) -> Answer
    ensures { result ≡ measured table.now options set.now }
{
    formula::table::check(table, options)?;
    measure_under(table, set)
}
