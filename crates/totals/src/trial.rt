// The clause total under a set in which one node is put in or taken out.
ghost use Rattle.formula.specs.Tables.{nodes_of};
ghost use Rattle.totals.specs.Inner.Sums.{Triable, Tried};

use crate::rows::Columns;
use crate::whole::whole;
use capped::total::ClauseTotal;
use marks::mark::Marks;

// Sets the byte of node `i`, and gives the clause total under the set then; no node below `from` is renamed in it. The
// rows of the nodes up to `i` stand as they were: only those above it see node `i`.
pub fn trial(
    table: &[u8],
    marks: &Marks,
    set: &mut [u8],
    from: usize,
    i: usize,
    byte: u8,
    columns: &mut Columns,
) -> ClauseTotal
    requires { Triable table.now marks.now set.old from i byte columns.old.clauses columns.old.literals }
    ensures { Tried (nodes_of table.now) i byte set.old set.new result.n columns.new.clauses
        columns.new.literals }
{
    set[i] = byte;
    columns.fill(table, set, i + 1);
    whole(table, marks, set, from, columns).clauses
}
