// Converting a formula under a set to clause bytes.
ghost use Rattle.std.specs.Prelude.{◌≡◌, length};
ghost use Rattle.formula.specs.Tables.{nodes_of};
ghost use Rattle.laws.specs.Lists.{splice};
ghost use Rattle.clausal.specs.Clauses.{renaming, variables_of};
ghost use Rattle.capped.specs.Inner.Sized.{sized};
ghost use Rattle.clausal.specs.Calls.{ceilings, taken_checked, converted_under, converted, converted_after};
ghost use Rattle.convert.specs.Inner.Fitted.{fitted, written_under, output_bytes, Convertible, Measured, Fitting};

use answer::{Accepted, Answer, Refusal};
use capped::total::{ClauseTotal, LiteralTotal, Total};
use formula::node::{MOST_NODES, MOST_OPTIONS};
use marks::mark::Marks;
use parts::helper::name_all;
use parts::part::write_all;
use totals::prepare::prepare;
use totals::rows::Columns;
use walk::nodes::Nodes;

// Checks that totals are below their ceilings.
pub fn below(sum: Total) -> Answer
    ensures { result ≡ ceilings (sized sum) }
{
    if sum.clauses.n >= ClauseTotal::CEILING {
        return Err(Refusal::Clauses);
    }
    if sum.literals.n >= LiteralTotal::CEILING {
        return Err(Refusal::Literals);
    }
    Ok(Accepted {
        first: 0,
        second: 0,
    })
}

// Checks that totals are below their ceilings, and that a buffer has room for the output.
fn fit(sum: Total, room: usize) -> Answer
    ensures { result ≡ fitted (sized sum) room }
{
    below(sum)?;
    let bytes = 4 * (usize::from(sum.clauses.n) + sum.literals.n as usize);
    if room < bytes {
        return Err(Refusal::Room);
    }
    Ok(Accepted {
        first: 0,
        second: 0,
    })
}

// Writes the output into a buffer in which it fits, and returns the last variable.
fn write_output(
    table: &[u8],
    taken: u32,
    marks: &Marks,
    set: &[u8],
    columns: &Columns,
    out: &mut [u8],
) -> u32
    requires { Fitting table.now taken marks.now set.now columns.now out.old }
    ensures { (result ≡ variables_of (renaming taken set.now) (length set.now)) ×
        (out.new ≡ splice out.old 0 (output_bytes table.now taken set.now)) }
{
    let mut helpers = [0u32; MOST_NODES];
    let last = name_all(taken, set, &mut helpers);
    let nodes = Nodes {
        table,
        columns,
        helpers: &helpers,
    };
    write_all(&nodes, marks, out);
    last
}

// Writes the output, where it fits.
fn write_under(
    table: &[u8],
    taken: u32,
    marks: &Marks,
    set: &[u8],
    columns: &Columns,
    sum: Total,
    out: &mut [u8],
) -> Answer
    requires { Measured table.now taken marks.now set.now columns.now (sized sum) }
    ensures { record { answer = result; output = out.new } ≡ written_under (renaming taken set.now)
        (nodes_of table.now) out.old }
{
    fit(sum, out.len())?;
    let last = write_output(table, taken, marks, set, columns, out);
    Ok(Accepted {
        first: last,
        second: u32::from(sum.clauses.n),
    })
}

// Checks a set for a table that is right, and converts, with helpers after what is taken.
fn convert_under(table: &[u8], taken: u32, set: &[u8], out: &mut [u8]) -> Answer
    requires { Convertible table.now taken }
    ensures { record { answer = result; output = out.new } ≡ converted_under (renaming taken set.now)
        (nodes_of table.now) out.old }
{
    let mut marks = [0u8; MOST_NODES];
    let mut columns = Columns::blank();
    let sum = prepare(table, set, &mut marks, &mut columns)?;
    write_under(table, taken, &marks, set, &columns, sum, out)
}

// Checks that what is taken has all options, and no more than a project may have.
fn check_taken(options: u32, taken: u32) -> Answer
    ensures { result ≡ taken_checked options taken }
{
    if taken < options || taken > MOST_OPTIONS {
        return Err(Refusal::Options);
    }
    Ok(Accepted {
        first: 0,
        second: 0,
    })
}

// Checks a table and a set, and writes the clauses of the formula under the set: variables and clauses are reported.
pub fn convert(table: &[u8], options: u32, set: &[u8], out: &mut [u8]) -> Answer
    ensures { record { answer = result; output = out.new } ≡ converted table.now options set.now
        out.old }
{
    formula::table::check(table, options)?;
    convert_under(table, options, set, out)
}

// The same for a guard that is solved together with others: helpers come after `taken`, the last variable that is used.
pub fn convert_after(table: &[u8], options: u32, taken: u32, set: &[u8], out: &mut [u8]) -> Answer
    ensures { record { answer = result; output = out.new } ≡ converted_after table.now options taken set.now
        out.old }
{
    formula::table::check(table, options)?;
    check_taken(options, taken)?;
    convert_under(table, taken, set, out)
}
