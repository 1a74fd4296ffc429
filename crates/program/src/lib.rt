// What the program prints: a node file in, DIMACS text or the line of a refusal out.
#![tactic(auto)]

mod refusal;

ghost use Rattle.std.specs.Prelude.{◌≡◌, ◌*◌, length};
ghost use Rattle.formula.specs.Tables.{node_bytes};
ghost use Rattle.program.specs.Printed.{buffer_bytes, clauses_printed, set_printed, table_printed, printed, Shows};
ghost use Rattle.program.specs.Inner.Sizes.{size_told, Room};

use answer::tell;
use clausebytes::word::room;
use formula::node::{MOST_NODES, MOST_TABLE, NODE_BYTES};
use refusal::put_refusal;

const ALLOWANCE: u32 = 1_024;

// Bytes of a buffer: one for clause bytes, and another for what is printed.
pub const BUFFER: usize = 65_536;

// Prints clause bytes as text.
fn print_clauses(clauses: &[u8], variables: u32, out: &mut [u8]) -> usize
    requires { length out.old ≡ buffer_bytes }
    ensures { Shows (clauses_printed clauses.now variables) out.old result out.new }
{
    let written = dimacs::write(clauses, variables, out);
    match written {
        Ok(_) => dimacs::text_length(clauses, variables),
        Err(refusal) => put_refusal(refusal, out),
    }
}

// How many clause bytes a table has under a set.
fn size(table: &[u8], options: u32, set: &[u8]) -> usize
    ensures { result ≡ size_told table.now options set.now }
{
    let told = tell(totals::measure::measure(table, options, set));
    room(told.first, told.second)
}

// Converts a table under a set, and prints the clauses.
fn print_set(table: &[u8], options: u32, set: &[u8], out: &mut [u8]) -> usize
    requires { length out.old ≡ buffer_bytes }
    ensures { Shows (set_printed table.now options set.now) out.old result out.new }
{
    let mut clauses = [0u8; BUFFER];
    let made = convert::convert::convert(table, options, set, &mut clauses);
    match made {
        Ok(reported) => {
            let bytes = size(table, options, set);
            print_clauses(&clauses[..bytes], reported.first, out)
        }
        Err(refusal) => put_refusal(refusal, out),
    }
}

// Chooses a set for a table, and prints the clauses under it.
fn print_table(table: &[u8], options: u32, out: &mut [u8]) -> usize
    requires { Room table.now out.old }
    ensures { Shows (table_printed table.now options) out.old result out.new }
{
    let mut sets = [0u8; MOST_NODES];
    let set = &mut sets[..table.len() / NODE_BYTES];
    let chosen = choose::pass::choose(table, options, ALLOWANCE, set);
    match chosen {
        Ok(_) => print_set(table, options, set, out),
        Err(refusal) => put_refusal(refusal, out),
    }
}

// How many bytes the nodes of a table take.
fn table_size(nodes: u32) -> usize
    ensures { result ≡ node_bytes * nodes }
{
    NODE_BYTES * nodes as usize
}

// Prints what a node file comes to, at the start of a buffer, and returns how many bytes that is.
pub fn print(text: &[u8], out: &mut [u8]) -> usize
    requires { length out.old ≡ buffer_bytes }
    ensures { Shows (printed text.now) out.old result out.new }
{
    let mut table = [0u8; MOST_TABLE];
    let read = nodefile::read(text, &mut table);
    match read {
        Ok(reported) => {
            let bytes = table_size(reported.second);
            print_table(&table[..bytes], reported.first, out)
        }
        Err(refusal) => put_refusal(refusal, out),
    }
}
