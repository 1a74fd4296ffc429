// The totals of a whole formula under a set: those of its root, then of each definition.
ghost use Rattle.std.specs.Prelude.{◌≡◌, ◌<◌};
ghost use Rattle.marks.specs.Inner.Held.{held_at};
ghost use Rattle.formula.specs.Tables.{most_nodes, nodes_of};
ghost use Rattle.marks.specs.Sets.{renamed};
ghost use Rattle.clausal.specs.Clauses.{renaming};
ghost use Rattle.clausal.specs.Totals.{capped, totals};
ghost use Rattle.totals.specs.Inner.Columns.{row_in};
ghost use Rattle.capped.specs.Inner.Sized.{sized, as_total};
ghost use Rattle.totals.specs.Inner.Rowed.{rowed};
ghost use Rattle.totals.specs.Inner.Sums.{with_part, with_definition, with_node, Summable};

use crate::rows::{Columns, Row};
use capped::total::Total;
use formula::node::NODE_BYTES;
use marks::mark::{Mark, Marks, halves_of, read};
use marks::set::is_renamed;

// A sum with one more part, where the definition has it.
fn with_part(has: bool, part: Total, sum: Total) -> Total
    ensures { result ≡ as_total (with_part capped has (sized part) (sized sum)) }
{
    if has {
        return sum.cat(part);
    }
    sum
}

// A sum with the definition of a renamed node: the half down, then the half up.
fn with_definition(m: Mark, row: Row, sum: Total) -> Total
    ensures { result ≡ as_total (with_definition capped 0 m (rowed row) (sized sum)) }
{
    let halves = halves_of(m);
    let down = with_part(halves.down, Total::unit().join(row.p), sum);
    with_part(halves.up, row.n.join(Total::unit()), down)
}

// A sum with what node `i` adds: its definition, where it is renamed.
fn with_node(marks: &Marks, set: &[u8], columns: &Columns, i: usize, sum: Total) -> Total
    requires { i < most_nodes }
    ensures { result ≡ as_total (with_node capped (renamed set.now i) 0 (held_at marks.now i)
        (row_in columns.now.clauses columns.now.literals i) (sized sum)) }
{
    if !is_renamed(set, i) {
        return sum;
    }
    with_definition(read(marks, i), columns.row_at(i), sum)
}

// The totals of a table under a set, from its marks and the rows of its nodes; no node below `from` is renamed.
pub fn whole(table: &[u8], marks: &Marks, set: &[u8], from: usize, columns: &Columns) -> Total
    requires { Summable table.now marks.now set.now from columns.now.clauses columns.now.literals }
    ensures { result ≡ as_total (totals (renaming 0 set.now) (nodes_of table.now)) }
{
    let count = table.len() / NODE_BYTES;
    let root = columns.row_at(count - 1);
    let mut sum = Total::none().cat(root.p);
    for i in from..count {
        sum = with_node(marks, set, columns, i, sum);
    }
    sum
}
