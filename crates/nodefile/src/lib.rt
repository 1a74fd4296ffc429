// The node file: lines of text that give the option count and the nodes of a formula table.
#![tactic(auto)]

mod line;

ghost use Rattle.std.specs.Prelude.{◌≡◌};
ghost use Rattle.nodefile.specs.Inner.Reads.{file_read};

use answer::{Accepted, Answer, Refusal};
use formula::node::{MOST_TABLE, NODE_BYTES, put_node};
use line::Node;
use text::write::put_bytes;

pub const MOST_BYTES: usize = 65_536;

// Reads a node file as the bytes of a table; reports the option count and the nodes.
// The records are collected first: a wrong line behind them leaves the lent buffer as it was.
pub fn read(text: &[u8], table: &mut [u8]) -> Answer
    ensures { record { answer = result; output = table.new } ≡ file_read text.now table.old }
{
    if text.len() > MOST_BYTES {
        return Err(Refusal::Line { line: 0 });
    }
    let Some(options) = line::options_at(text) else {
        return Err(Refusal::Line { line: 1 });
    };
    let mut bytes = [0u8; MOST_TABLE];
    let mut nodes: u32 = 0;
    let mut at = options.next;
    while at < text.len() {
        let Some(line) = line::node_at(text, at, nodes) else {
            return Err(Refusal::Line { line: nodes + 2 });
        };
        let Node { kind, a, b } = line.says;
        put_node(&mut bytes, NODE_BYTES * (nodes as usize), kind, a, b);
        nodes += 1;
        at = line.next;
    }
    let size = NODE_BYTES * (nodes as usize);
    if table.len() < size {
        return Err(Refusal::Room);
    }
    put_bytes(table, 0, &bytes[..size]);
    Ok(Accepted {
        first: options.says,
        second: nodes,
    })
}
