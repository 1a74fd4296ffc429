// The other DIMACS format: a `p sat` text, read as the table of its formula.
#![tactic(auto)]

mod lead;
mod nested;
mod table;

ghost use Rattle.std.specs.Prelude.{◌≡◌};
ghost use Rattle.answer.specs.declared.Refusal.TheVariants.{SatText};
ghost use Rattle.satfile.specs.Texts.{sat};
ghost use Rattle.satfile.specs.Inner.Calls.{read_call};

use answer::{Accepted, Answer, Refusal};
use classes::Classes;
use formula::node::{MOST_NODES, MOST_OPTIONS, NODE_BYTES};
use header::Form;
use lead::{Group, Reader, Wrong};

// The most parentheses that may be open at once.
const MOST_OPEN: u32 = 64;

impl From<Wrong> for Refusal {
    ghost from_gives = { λ w r. r ≡ SatText w.place };

    // A text that is wrong from a place on is refused with that place.
    fn from(wrong: Wrong) -> Refusal {
        Refusal::SatText { place: wrong.place }
    }
}

// The form of the header: `sat` and the options.
fn sat_form() -> Form
    ensures { result ≡ sat }
{
    Form {
        first: b's',
        second: b'a',
        third: b't',
        before: None,
        last: MOST_OPTIONS,
    }
}

// Reads a text as the table of its formula; reports the options and the nodes. It is read once to learn whether it is accepted, into a
// table that has room for no node, and once more to store the nodes.
pub fn read(text: &[u8], table: &mut [u8]) -> Answer
    ensures { record { answer = result; output = table.new } ≡ read_call text.now table.old }
{
    let classes = Classes::new();
    let head = header::read(&classes, text, sat_form());
    let from = head.place;
    if !head.is_done() {
        return Err(Refusal::SatText { place: from });
    }
    let options = head.value;
    let reader = Reader { text, options };
    let mut nowhere = [0u8; 1];
    let whole = reader.list(from, 0, MOST_OPEN, Group::Whole, &mut nowhere)?;
    let nodes = whole.next;
    if nodes > MOST_NODES {
        return Err(Refusal::Nodes);
    }
    if table.len() < NODE_BYTES * nodes {
        return Err(Refusal::Room);
    }
    reader.list(from, 0, MOST_OPEN, Group::Whole, table)?;
    Ok(Accepted {
        first: options,
        second: nodes as u32,
    })
}
