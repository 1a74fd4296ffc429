// The calls that tell where clauses come from: the line of one clause, or the lines of all.
ghost use Rattle.std.specs.Prelude.{◌≡◌};
ghost use Rattle.answer.specs.Answers.{accepted_with, stored};
ghost use Rattle.formula.specs.Tables.{nodes_of};
ghost use Rattle.names.specs.Inner.Notes.{Known};
ghost use Rattle.clausal.specs.Clauses.{renaming};
ghost use Rattle.origin.specs.Calls.{origin_call, origins_call};
ghost use Rattle.origin.specs.Inner.Lines.{lists_of, Tellable};
ghost use Rattle.origin.specs.Inner.Shown.{spanned, lines_between, named_with, Listed, Showable, shown_under};

use crate::line::{Span, put_lines};
use answer::{Accepted, Answer, Refusal};
use convert::convert::below;
use formula::node::MOST_NODES;
use marks::mark::Marks;
use names::list::is_right;
use names::lookup::Voices;
use parts::helper::name_all;
use totals::prepare::prepare;
use totals::rows::Columns;
use walk::nodes::Nodes;

// Measures lines, and writes them where there is room.
fn write_lines(
    nodes: &Nodes,
    marks: &Marks,
    set: &[u8],
    voices: &mut Voices,
    span: Span,
    out: &mut [u8],
) -> Answer
    requires tellable { Tellable nodes.now marks.now set.now (lists_of voices.old) span }
    requires known { Known voices.old }
    ensures { record { answer = result; output = out.new } ≡ stored (accepted_with 0 0)
        (lines_between (lists_of voices.old) (renaming voices.old.options set.now) (nodes_of nodes.now.table.now) span) out.old }
{
    let measured = put_lines(nodes, marks, set, voices, span, out, false);
    if !measured.fits {
        return Err(Refusal::Room);
    }
    put_lines(nodes, marks, set, voices, span, out, true);
    Ok(Accepted {
        first: 0,
        second: 0,
    })
}

// Checks both lists of names, for as many helpers as are counted, and writes the lines of some clauses.
fn name_lines(
    nodes: &Nodes,
    marks: &Marks,
    set: &[u8],
    voices: &mut Voices,
    count: usize,
    span: Span,
    out: &mut [u8],
) -> Answer
    requires { Listed nodes.now marks.now set.now voices.old count span }
    ensures { record { answer = result; output = out.new } ≡ named_with (lists_of voices.old)
        (renaming voices.old.options set.now) (nodes_of nodes.now.table.now)
        (lines_between (lists_of voices.old) (renaming voices.old.options set.now) (nodes_of nodes.now.table.now) span) out.old }
{
    let options = voices.options as usize;
    if !is_right(voices.option_names.list, options) || !is_right(voices.helper_names.list, count) {
        return Err(Refusal::Names);
    }
    voices.option_names.note(options);
    voices.helper_names.note(count);
    write_lines(nodes, marks, set, voices, span, out)
}

// The numbers of the clauses that are told: of one clause, where there is such a one, or of all.
fn span(clause: Option<u32>, total: u32) -> Result<Span, Refusal>
    ensures { result ≡ spanned clause total }
{
    match clause {
        None => Ok(Span {
            from: 0,
            end: total as usize,
        }),
        Some(k) if k < total => Ok(Span {
            from: k as usize,
            end: k as usize + 1,
        }),
        Some(k) => Err(Refusal::NoClause { clause: k }),
    }
}

// Checks a set for a table that is right, the totals and a clause's number, and writes the line of this clause alone, or of all.
fn show_under(
    table: &[u8],
    set: &[u8],
    clause: Option<u32>,
    voices: &mut Voices,
    out: &mut [u8],
) -> Answer
    requires { Showable table.now voices.old }
    ensures { record { answer = result; output = out.new } ≡ shown_under clause (lists_of voices.old)
        (renaming voices.old.options set.now) (nodes_of table.now) out.old }
{
    let mut marks = [0u8; MOST_NODES];
    let mut columns = Columns::blank();
    let sum = prepare(table, set, &mut marks, &mut columns)?;
    below(sum)?;
    let total = u32::from(sum.clauses.n);
    let told = span(clause, total)?;
    let mut helpers = [0u32; MOST_NODES];
    let last = name_all(voices.options, set, &mut helpers);
    let nodes = Nodes {
        table,
        columns: &columns,
        helpers: &helpers,
    };
    let count = (last - voices.options) as usize;
    name_lines(&nodes, &marks, set, voices, count, told, out)?;
    Ok(Accepted {
        first: last,
        second: total,
    })
}

// Checks a table, a set, a clause's number and two lists of names, and writes the line that tells where the clause comes from:
// variables and clauses are reported.
pub fn origin<'a>(
    table: &[u8],
    options: u32,
    set: &[u8],
    clause: u32,
    option_names: &'a [u8],
    helper_names: &'a [u8],
    line: &mut [u8],
) -> Answer
    ensures { record { answer = result; output = line.new } ≡ origin_call table.now options set.now clause
        option_names.now helper_names.now line.old }
{
    formula::table::check(table, options)?;
    let mut voices = Voices::new(options, option_names, helper_names);
    show_under(table, set, Some(clause), &mut voices, line)
}

// The same for all clauses, one line after the other.
pub fn origins<'a>(
    table: &[u8],
    options: u32,
    set: &[u8],
    option_names: &'a [u8],
    helper_names: &'a [u8],
    lines: &mut [u8],
) -> Answer
    ensures { record { answer = result; output = lines.new } ≡ origins_call table.now options set.now
        option_names.now helper_names.now lines.old }
{
    formula::table::check(table, options)?;
    let mut voices = Voices::new(options, option_names, helper_names);
    show_under(table, set, None, &mut voices, lines)
}
