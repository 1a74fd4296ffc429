// The entries that a host calls, and nothing else. Each looks first at its answer part.
#![tactic(auto)]

ghost use Rattle.std.specs.Prelude.{◌≡◌, ℕ, ◌<◌, get_or};
ghost use Rattle.answer.specs.Answers.{only, leaves};
ghost use Rattle.formula.specs.Checks.{checked};
ghost use Rattle.clausal.specs.Calls.{measured, chosen_by, converted, converted_after};
ghost use Rattle.origin.specs.Calls.{origin_call, origins_call};
ghost use Rattle.dimacs.specs.Texts.{write_call};
ghost use Rattle.dimacs.specs.Inner.Calls.{read_call};
ghost use Rattle.satfile.specs.Inner.Calls as satfile;
ghost use Rattle.tidied.specs.Calls.{tidy_call};

use answer::{give, is_part_wrong};

// The number of an answer part that is not 16 bytes long.
const WRONG_PART: u32 = 11;

// Checks a formula table for a project of `options` options.
pub fn simbolufa_check(table: &[u8], options: u32, answer: &mut [u8]) -> u32
    ensures { record { result = result; output = tt; part = answer.new }
        ≡ leaves answer.old tt
        (only (checked table.now options)) }
{
    if is_part_wrong(answer) {
        return WRONG_PART;
    }
    give(formula::table::check(table, options), answer)
}

// Checks a table and a set, and gives the clause and the literal total, each read at its ceiling.
pub fn simbolufa_measure(table: &[u8], options: u32, set: &[u8], answer: &mut [u8]) -> u32
    ensures { record { result = result; output = tt; part = answer.new }
        ≡ leaves answer.old tt
        (only (measured table.now options set.now)) }
{
    if is_part_wrong(answer) {
        return WRONG_PART;
    }
    give(totals::measure::measure(table, options, set), answer)
}

// Checks a table, and writes the set of nodes to rename under an allowance: picks and final total are reported.
pub fn simbolufa_choose(
    table: &[u8],
    options: u32,
    allowance: u32,
    set: &mut [u8],
    answer: &mut [u8],
) -> u32
    ensures { record { result = result; output = set.new; part = answer.new }
        ≡ leaves answer.old set.old
        (chosen_by table.now options allowance set.old) }
{
    if is_part_wrong(answer) {
        return WRONG_PART;
    }
    give(choose::pass::choose(table, options, allowance, set), answer)
}

// Checks a table and a set, and writes the clauses of the formula under the set: variables and clauses are reported.
pub fn simbolufa_convert(
    table: &[u8],
    options: u32,
    set: &[u8],
    out: &mut [u8],
    answer: &mut [u8],
) -> u32
    ensures { record { result = result; output = out.new; part = answer.new }
        ≡ leaves answer.old out.old
        (converted table.now options set.now out.old) }
{
    if is_part_wrong(answer) {
        return WRONG_PART;
    }
    give(convert::convert::convert(table, options, set, out), answer)
}

// The same for a guard that is solved together with others: `taken` is the last variable that is used already, and helpers come
// after it.
pub fn simbolufa_convert_after(
    table: &[u8],
    options: u32,
    taken: u32,
    set: &[u8],
    out: &mut [u8],
    answer: &mut [u8],
) -> u32
    ensures { record { result = result; output = out.new; part = answer.new }
        ≡ leaves answer.old out.old
        (converted_after table.now options taken set.now out.old) }
{
    if is_part_wrong(answer) {
        return WRONG_PART;
    }
    give(
        convert::convert::convert_after(table, options, taken, set, out),
        answer,
    )
}

// Checks a table, a set, a clause's number and the names of options and of helpers, and writes the line that tells where the clause
// comes from: variables and clauses are reported.
pub fn simbolufa_origin<'a>(
    table: &[u8],
    options: u32,
    set: &[u8],
    clause: u32,
    option_names: &'a [u8],
    helper_names: &'a [u8],
    line: &mut [u8],
    answer: &mut [u8],
) -> u32
    ensures { record { result = result; output = line.new; part = answer.new }
        ≡ leaves answer.old line.old
        (origin_call table.now options set.now clause option_names.now helper_names.now
        line.old) }
{
    if is_part_wrong(answer) {
        return WRONG_PART;
    }
    give(
        origin::calls::origin(
            table,
            options,
            set,
            clause,
            option_names,
            helper_names,
            line,
        ),
        answer,
    )
}

// The same for all clauses, one line after the other.
pub fn simbolufa_origins<'a>(
    table: &[u8],
    options: u32,
    set: &[u8],
    option_names: &'a [u8],
    helper_names: &'a [u8],
    lines: &mut [u8],
    answer: &mut [u8],
) -> u32
    ensures { record { result = result; output = lines.new; part = answer.new }
        ≡ leaves answer.old lines.old
        (origins_call table.now options set.now option_names.now helper_names.now
        lines.old) }
{
    if is_part_wrong(answer) {
        return WRONG_PART;
    }
    give(
        origin::calls::origins(table, options, set, option_names, helper_names, lines),
        answer,
    )
}

// Writes clause bytes as DIMACS text with `variables` declared: variables and clauses are reported. That a lent byte is below 256 is
// said too: the round trip asks it.
pub fn simbolufa_write_dimacs(
    clauses: &[u8],
    variables: u32,
    text: &mut [u8],
    answer: &mut [u8],
) -> u32
    ensures settled { record { result = result; output = text.new; part = answer.new }
        ≡ leaves answer.old text.old
        (write_call clauses.now variables text.old) }
    ensures bytes { (i : ℕ) → get_or clauses.now i 0 < 256 }
{
    if is_part_wrong(answer) {
        return WRONG_PART;
    }
    give(dimacs::write(clauses, variables, text), answer)
}

// Reads DIMACS text as clause bytes: the declared variables and clauses are reported.
pub fn simbolufa_read_dimacs(text: &[u8], clauses: &mut [u8], answer: &mut [u8]) -> u32
    ensures { record { result = result; output = clauses.new; part = answer.new }
        ≡ leaves answer.old clauses.old
        (read_call text.now clauses.old) }
{
    if is_part_wrong(answer) {
        return WRONG_PART;
    }
    give(dimacs::read(text, clauses), answer)
}

// Reads a `p sat` text as the table of its formula: the options and the nodes are reported.
pub fn simbolufa_read_sat(text: &[u8], table: &mut [u8], answer: &mut [u8]) -> u32
    ensures { record { result = result; output = table.new; part = answer.new }
        ≡ leaves answer.old table.old
        (satfile.read_call text.now table.old) }
{
    if is_part_wrong(answer) {
        return WRONG_PART;
    }
    give(satfile::read(text, table), answer)
}

// Takes out of clause bytes, with `variables` declared, what changes nothing, and tells what went in lines: the lines and the kept clauses
// are reported. That a lent byte is below 256 is said too: what is kept can then be written as text.
pub fn simbolufa_tidy(
    clauses: &[u8],
    variables: u32,
    out: &mut [u8],
    changes: &mut [u8],
    answer: &mut [u8],
) -> u32
    ensures settled { record { result = result; output = record { kept = out.new; lines = changes.new }; part = answer.new }
        ≡ leaves answer.old (record { kept = out.old; lines = changes.old })
        (tidy_call clauses.now variables (record { kept = out.old; lines = changes.old })) }
    ensures bytes { (i : ℕ) → get_or clauses.now i 0 < 256 }
{
    if is_part_wrong(answer) {
        return WRONG_PART;
    }
    give(tidy::tidy(clauses, variables, out, changes), answer)
}
