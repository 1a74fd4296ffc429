// Tidying clause bytes: literals that stand twice, tautologies and repeats are left out, and lines tell what went.
#![tactic(auto)]

mod pass;
mod window;

ghost use Rattle.std.specs.Prelude.{◌≡◌, ◌&&◌, leb, length};
ghost use Rattle.tidied.specs.Calls.{tidy_call};

use answer::{Accepted, Answer, Refusal};
use clausebytes::check::check;
use kept::pen::Pen;
use pass::put_all;

// Whether both buffers have room for what was measured.
fn fits(measured: Pen, out: &[u8], changes: &[u8]) -> bool
    ensures { result ≡ (leb measured.kept (length out.now) && leb measured.lines (length changes.now)) }
{
    measured.kept <= out.len() && measured.lines <= changes.len()
}

// Tidies clause bytes with `variables` declared: the numbers of changes and of kept clauses are reported.
pub fn tidy(clauses: &[u8], variables: u32, out: &mut [u8], changes: &mut [u8]) -> Answer
    ensures { record { answer = result; output = record { kept = out.new; lines = changes.new } }
        ≡ tidy_call clauses.now variables (record { kept = out.old; lines = changes.old }) }
{
    let Some(counted) = check(clauses, variables) else {
        return Err(Refusal::ClauseBytes);
    };
    let measured = put_all(clauses, variables, counted.clauses, false, out, changes);
    if !fits(measured, out, changes) {
        return Err(Refusal::Room);
    }
    put_all(clauses, variables, counted.clauses, true, out, changes);
    Ok(Accepted {
        first: measured.changes,
        second: measured.clauses,
    })
}
