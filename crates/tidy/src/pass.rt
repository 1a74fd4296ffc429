// A pass over all clauses, window by window: what is kept and the lines of what goes are measured, or written.
ghost use Rattle.std.specs.Prelude.{cond, ◌≡◌, ltb, length};
ghost use Rattle.clausal.specs.Clauses.{clauses_bytes};
ghost use Rattle.clausebytes.specs.Words.{clauses_of};
ghost use Rattle.tidied.specs.Tidying.{tidied, changes_of};
ghost use Rattle.kept.specs.Inner.Pens.{Drawn};
ghost use Rattle.tidy.specs.Inner.Passes.{start_pen, Passable, Passed, Whole};
ghost use Rattle.tidy.specs.Inner.Windows.{most};

use crate::window::first_clauses;
use kept::clause::put_fate;
use kept::pen::Pen;
use sets::row::Row;
use sets::set::end_of;

// The place behind a window, and the pen there.
#[derive(Clone, Copy)]
pub struct Walked {
    pub place: usize,
    pub pen: Pen,
}

// Puts what is kept of the clauses of a window, and the lines of what goes. `firsts` has the first clauses with the same literals.
fn put_window(
    bytes: &[u8],
    start: u32,
    place: usize,
    firsts: &[u32],
    out: &mut [u8],
    lines: &mut [u8],
    row: &mut Row,
    pen: Pen,
) -> Walked
    requires { Passable bytes.now start place (length firsts.now) firsts.now out.old lines.old pen }
    ensures { Passed bytes.now start (length firsts.now) out.old lines.old pen out.new lines.new result }
{
    let mut drawn = pen;
    let mut at = place;
    for (i, &first) in firsts.iter().enumerate() {
        let number = start + i as u32;
        drawn = put_fate(bytes, at, number, first, out, lines, row, drawn);
        at = end_of(bytes, at) + 1;
    }
    Walked {
        place: at,
        pen: drawn,
    }
}

// How many clauses the next window has, of those that are left.
fn window_size(left: u32) -> usize
    ensures { result ≡ cond (ltb left most) left most }
{
    left.min(1_024) as usize
}

// Puts what is kept of all clauses, and the lines of what goes.
pub fn put_all(
    bytes: &[u8],
    variables: u32,
    count: u32,
    writing: bool,
    out: &mut [u8],
    lines: &mut [u8],
) -> Pen
    requires { Whole bytes.now variables count writing out.old lines.old }
    ensures { Drawn (clauses_bytes (tidied (clauses_of bytes.now))) (length (tidied (clauses_of bytes.now)))
        (changes_of (clauses_of bytes.now)) out.old lines.old (start_pen writing)
        out.new lines.new result }
{
    let mut row = Row::new();
    let mut walked = Walked {
        place: 0,
        pen: Pen {
            writing,
            kept: 0,
            lines: 0,
            clauses: 0,
            changes: 0,
        },
    };
    let mut seed = 0;
    for start in (0..count).step_by(1_024) {
        let size = window_size(count - start);
        let found = first_clauses(bytes, start, walked.place, size, seed, &mut row);
        let firsts = found.firsts;
        let pen = walked.pen;
        walked = put_window(
            bytes,
            start,
            walked.place,
            &firsts[..size],
            out,
            lines,
            &mut row,
            pen,
        );
        seed = found.seed;
    }
    walked.pen
}
