// How many clauses a list has.
ghost use Rattle.std.specs.Prelude.{◌≡◌, ◌<◌};
ghost use Rattle.formula.specs.Tables.{most_nodes};
ghost use Rattle.walk.specs.Inner.Lists.{signed, pair_in};

use totals::rows::Columns;

// How many clauses the list of a node has for a sign.
pub fn own_count(columns: &Columns, node: usize, sign: bool) -> usize
    requires { node < most_nodes }
    ensures { (result ≡ signed sign (pair_in columns.now.clauses node)) × (result < 65_536) }
{
    usize::from(if sign {
        columns.clauses[0][node]
    } else {
        columns.clauses[1][node]
    })
}
