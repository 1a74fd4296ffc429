// What every call that goes on from a table and a set does first: marks, the check of the set, and the totals.
ghost use Rattle.totals.specs.Inner.Prepared.{Blank, Prepares};

use crate::rows::Columns;
use crate::whole::whole;
use answer::Refusal;
use capped::total::Total;
use marks::mark::{Marks, mark_all};

// Marks the nodes of a table that is right, checks a set, and fills in the totals of all nodes under it. It gives those of the
// whole formula, or the refusal of the set.
pub fn prepare(
    table: &[u8],
    set: &[u8],
    marks: &mut Marks,
    columns: &mut Columns,
) -> Result<Total, Refusal>
    requires { Blank table.now marks.old columns.old.clauses columns.old.literals }
    ensures { Prepares table.now set.now result marks.new columns.new.clauses columns.new.literals }
{
    mark_all(table, marks);
    marks::set::check(table, marks, set)?;
    columns.fill(table, set, 0);
    Ok(whole(table, marks, set, 0, columns))
}
