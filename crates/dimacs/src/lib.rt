// DIMACS CNF: writing clause bytes as text, and reading text as clause bytes.
#![tactic(auto)]

mod copier;
mod reader;
mod writer;

ghost use Rattle.std.specs.Prelude.{◌≡◌, ◌+◌, ◌<◌, ◌^◌, length};
ghost use Rattle.dimacs.specs.Texts.{header_line, cnf, write_call};
ghost use Rattle.dimacs.specs.Inner.Calls.{text_length, read_call};

use answer::{Accepted, Answer, Refusal};
use body::State;
use classes::Classes;
use clausebytes::check::check;
use clausebytes::limits::{MOST_CLAUSES, MOST_VARIABLES};
use clausebytes::word::room;
use header::Form;
use text::number::width;

// The bytes of a text: the header line, and the lines of the clauses.
fn size(variables: u32, count: u32, lines: usize) -> usize
    requires { lines < 2 ^ 32 }
    ensures { result ≡ length (header_line variables count) + lines }
{
    8 + width(variables) + width(count) + lines
}

// How long the text of clause bytes is; 0 where they are wrong.
pub fn text_length(clauses: &[u8], variables: u32) -> usize
    ensures { result ≡ text_length clauses.now variables }
{
    match check(clauses, variables) {
        None => 0,
        Some(counted) => size(variables, counted.clauses, writer::lines_size(clauses)),
    }
}

// Writes clause bytes as text; reports the declared variables and the clauses.
pub fn write(clauses: &[u8], variables: u32, text: &mut [u8]) -> Answer
    ensures { record { answer = result; output = text.new } ≡ write_call clauses.now variables text.old }
{
    let Some(counted) = check(clauses, variables) else {
        return Err(Refusal::ClauseBytes);
    };
    if text.len() < size(variables, counted.clauses, writer::lines_size(clauses)) {
        return Err(Refusal::Room);
    }
    writer::put_text(clauses, variables, counted.clauses, text);
    Ok(Accepted {
        first: variables,
        second: counted.clauses,
    })
}

// The form of the header: `cnf`, variables and clauses.
fn cnf_form() -> Form
    ensures { result ≡ cnf }
{
    Form {
        first: b'c',
        second: b'n',
        third: b'f',
        before: Some(MOST_VARIABLES),
        last: MOST_CLAUSES,
    }
}

// Reads a text as clause bytes; reports the declared variables and the clauses.
pub fn read(text: &[u8], clauses: &mut [u8]) -> Answer
    ensures { record { answer = result; output = clauses.new } ≡ read_call text.now clauses.old }
{
    let classes = Classes::new();
    let head = header::read(&classes, text, cnf_form());
    let from = head.place;
    if !head.is_done() {
        return Err(Refusal::Text { place: from });
    }
    let variables = head.before;
    let declared = head.value;
    let start = State::start(from, variables, declared);
    let end = reader::check(&classes, text, start);
    if !end.is_accepted() {
        return Err(Refusal::Text { place: end.place });
    }
    if clauses.len() < room(declared, end.literals) {
        return Err(Refusal::Room);
    }
    copier::copy(&classes, text, from, variables, declared, clauses);
    Ok(Accepted {
        first: variables,
        second: declared,
    })
}
