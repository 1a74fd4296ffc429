// The check of a formula table: refusals 1, 2, and those of a wrong record.
ghost use Rattle.std.specs.Prelude.{◌≡◌, ◌≤◌, length};
ghost use Rattle.formula.specs.Tables.{most_table};
ghost use Rattle.formula.specs.Checks.{length_wrong, records_checked, checked};

use crate::node::{MOST_OPTIONS, MOST_TABLE, NODE_BYTES, fault, node_at};
use answer::{Accepted, Answer, Refusal};

// Checks the records of a table: the lowest node whose record is wrong decides.
fn check_records(table: &[u8], options: u32) -> Answer
    requires { length table.now ≤ most_table }
    ensures { result ≡ records_checked table.now options }
{
    for i in 0..table.len() / NODE_BYTES {
        if let Some(fault) = fault(options, i, node_at(table, i)) {
            return Err(Refusal::Record {
                fault,
                node: i as u32,
            });
        }
    }
    Ok(Accepted {
        first: 0,
        second: 0,
    })
}

// Whether a table of this many bytes is empty, has a node that is cut, or has too many nodes.
fn is_length_wrong(length: usize) -> bool
    ensures { result ≡ length_wrong length }
{
    length == 0 || length % NODE_BYTES != 0 || length > MOST_TABLE
}

// Checks a table, for a project of `options` options.
pub fn check(table: &[u8], options: u32) -> Answer
    ensures { result ≡ checked table.now options }
{
    if is_length_wrong(table.len()) {
        return Err(Refusal::TableLength);
    }
    if options > MOST_OPTIONS {
        return Err(Refusal::Options);
    }
    check_records(table, options)
}
