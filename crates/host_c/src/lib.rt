// The entries of a C host: the functions of the crate `host` under their C names. Each has the clauses of the function that it
// calls, word for word.
#![tactic(auto)]

ghost use Rattle.std.specs.Prelude.{◌≡◌, ℕ, ◌<◌, get_or};
ghost use Rattle.answer.specs.Answers.{only, leaves};
ghost use Rattle.formula.specs.Checks.{checked};
ghost use Rattle.clausal.specs.Calls.{measured, chosen_by, converted, converted_after};
ghost use Rattle.origin.specs.Calls.{origin_call, origins_call};
ghost use Rattle.dimacs.specs.Texts.{write_call};
ghost use Rattle.dimacs.specs.Inner.Calls.{read_call};
ghost use Rattle.satfile.specs.Inner.Calls as satfile;
ghost use Rattle.tidied.specs.Calls.{tidy_call};

#[unsafe(no_mangle)]
pub extern "C" fn simbolufa_check(table: &[u8], options: u32, answer: &mut [u8]) -> u32
    ensures { record { result = result; output = tt; part = answer.new }
        ≡ leaves answer.old tt
        (only (checked table.now options)) }
{
    host::simbolufa_check(table, options, answer)
}

#[unsafe(no_mangle)]
pub extern "C" fn simbolufa_measure(
    table: &[u8],
    options: u32,
    set: &[u8],
    answer: &mut [u8],
) -> u32
    ensures { record { result = result; output = tt; part = answer.new }
        ≡ leaves answer.old tt
        (only (measured table.now options set.now)) }
{
    host::simbolufa_measure(table, options, set, answer)
}

#[unsafe(no_mangle)]
pub extern "C" fn simbolufa_choose(
    table: &[u8],
    options: u32,
    allowance: u32,
    set: &mut [u8],
    answer: &mut [u8],
) -> u32
    ensures { record { result = result; output = set.new; part = answer.new }
        ≡ leaves answer.old set.old
        (chosen_by table.now options allowance set.old) }
{
    host::simbolufa_choose(table, options, allowance, set, answer)
}

#[unsafe(no_mangle)]
pub extern "C" fn simbolufa_convert(
    table: &[u8],
    options: u32,
    set: &[u8],
    out: &mut [u8],
    answer: &mut [u8],
) -> u32
    ensures { record { result = result; output = out.new; part = answer.new }
        ≡ leaves answer.old out.old
        (converted table.now options set.now out.old) }
{
    host::simbolufa_convert(table, options, set, out, answer)
}

#[unsafe(no_mangle)]
pub extern "C" fn simbolufa_convert_after(
    table: &[u8],
    options: u32,
    taken: u32,
    set: &[u8],
    out: &mut [u8],
    answer: &mut [u8],
) -> u32
    ensures { record { result = result; output = out.new; part = answer.new }
        ≡ leaves answer.old out.old
        (converted_after table.now options taken set.now out.old) }
{
    host::simbolufa_convert_after(table, options, taken, set, out, answer)
}

#[unsafe(no_mangle)]
pub extern "C" fn simbolufa_origin<'a>(
    table: &[u8],
    options: u32,
    set: &[u8],
    clause: u32,
    option_names: &'a [u8],
    helper_names: &'a [u8],
    line: &mut [u8],
    answer: &mut [u8],
) -> u32
    ensures { record { result = result; output = line.new; part = answer.new }
        ≡ leaves answer.old line.old
        (origin_call table.now options set.now clause option_names.now helper_names.now
        line.old) }
{
    host::simbolufa_origin(
        table,
        options,
        set,
        clause,
        option_names,
        helper_names,
        line,
        answer,
    )
}

#[unsafe(no_mangle)]
pub extern "C" fn simbolufa_origins<'a>(
    table: &[u8],
    options: u32,
    set: &[u8],
    option_names: &'a [u8],
    helper_names: &'a [u8],
    lines: &mut [u8],
    answer: &mut [u8],
) -> u32
    ensures { record { result = result; output = lines.new; part = answer.new }
        ≡ leaves answer.old lines.old
        (origins_call table.now options set.now option_names.now helper_names.now
        lines.old) }
{
    host::simbolufa_origins(
        table,
        options,
        set,
        option_names,
        helper_names,
        lines,
        answer,
    )
}

#[unsafe(no_mangle)]
pub extern "C" fn simbolufa_write_dimacs(
    clauses: &[u8],
    variables: u32,
    text: &mut [u8],
    answer: &mut [u8],
) -> u32
    ensures settled { record { result = result; output = text.new; part = answer.new }
        ≡ leaves answer.old text.old
        (write_call clauses.now variables text.old) }
    ensures bytes { (i : ℕ) → get_or clauses.now i 0 < 256 }
{
    host::simbolufa_write_dimacs(clauses, variables, text, answer)
}

#[unsafe(no_mangle)]
pub extern "C" fn simbolufa_read_dimacs(text: &[u8], clauses: &mut [u8], answer: &mut [u8]) -> u32
    ensures { record { result = result; output = clauses.new; part = answer.new }
        ≡ leaves answer.old clauses.old
        (read_call text.now clauses.old) }
{
    host::simbolufa_read_dimacs(text, clauses, answer)
}

#[unsafe(no_mangle)]
pub extern "C" fn simbolufa_read_sat(text: &[u8], table: &mut [u8], answer: &mut [u8]) -> u32
    ensures { record { result = result; output = table.new; part = answer.new }
        ≡ leaves answer.old table.old
        (satfile.read_call text.now table.old) }
{
    host::simbolufa_read_sat(text, table, answer)
}

#[unsafe(no_mangle)]
pub extern "C" fn simbolufa_tidy(
    clauses: &[u8],
    variables: u32,
    out: &mut [u8],
    changes: &mut [u8],
    answer: &mut [u8],
) -> u32
    ensures settled { record { result = result; output = record { kept = out.new; lines = changes.new }; part = answer.new }
        ≡ leaves answer.old (record { kept = out.old; lines = changes.old })
        (tidy_call clauses.now variables (record { kept = out.old; lines = changes.old })) }
    ensures bytes { (i : ℕ) → get_or clauses.now i 0 < 256 }
{
    host::simbolufa_tidy(clauses, variables, out, changes, answer)
}
