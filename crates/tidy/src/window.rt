// A window of clauses: where they stand, their signatures, and the first clause that has the same literals as each of them.
ghost use Rattle.std.specs.Prelude.{◌≡◌, ◌≤◌};
ghost use Rattle.tidied.specs.Tidying.{same_literals};
ghost use Rattle.sets.specs.Inner.Sets.{clause_from};
ghost use Rattle.tidy.specs.Inner.Windows.{most, slot_of, first_after, Notable, Noted, Comparable, Scannable, Scanned};
ghost use Rattle.tidy.specs.Inner.Windows.{Searchable, Searched, FirstsFound};

use sets::row::Row;
use sets::set::{end_of, is_same, sign};

// The number of no clause.
const NONE: u32 = 65_535;

// How often a clause may be compared in vain before another seed is tried, which is done up to the last.
const MISSES: usize = 4_096;

// No search has more: each clause is compared with those of a window at the most.
const ALL: usize = 67_107_840;

const LAST: u32 = 15;

// A clause that is looked for in a window.
#[derive(Clone, Copy)]
pub struct Spot {
    pub number: u32,
    pub place: usize,
    pub sign: u64,
}

// The numbers of the first clauses, and the seed with which they were found.
#[derive(Clone, Copy)]
pub struct Firsts {
    pub seed: u32,
    pub firsts: [u32; 1024],
}

// The slot of a signature.
fn slot(sign: u64) -> usize
    ensures { result ≡ slot_of sign }
{
    (sign % 65_536) as usize
}

// Whether a clause of a window has the same literals as the clause that is looked for. Other signatures say that it has not.
fn is_found(bytes: &[u8], place: usize, sign: u64, spot: Spot, row: &mut Row) -> bool
    requires { Comparable bytes.now place sign spot }
    ensures { result ≡ same_literals (clause_from bytes.now place) (clause_from bytes.now spot.place) }
{
    sign == spot.sign && is_same(bytes, place, spot.place, row)
}

// The number of a clause of a window: as it was, or that of the clause that is looked for.
fn first_after(bytes: &[u8], place: usize, sign: u64, first: u32, spot: Spot, row: &mut Row) -> u32
    requires { Comparable bytes.now place sign spot }
    ensures { result
        ≡ first_after first (same_literals (clause_from bytes.now place) (clause_from bytes.now spot.place)) spot.number }
{
    if first == NONE && is_found(bytes, place, sign, spot, row) {
        spot.number
    } else {
        first
    }
}

// Where the clauses of a window stand, and their signatures.
#[derive(Drop)]
pub struct Window {
    pub places: [usize; 1024],
    pub signs: [u64; 1024],
}

impl Window {
    // Notes `count` clauses from a place on, and their slots.
    fn note(
        &mut self,
        bytes: &[u8],
        place: usize,
        count: usize,
        seed: u32,
        slots: &mut [u8],
        row: &mut Row,
    )
        requires { Notable bytes.now place count seed self.old.places self.old.signs slots.old }
        ensures { Noted bytes.now place count seed self.new.places self.new.signs slots.new }
    {
        let mut at = place;
        for i in 0..count {
            let sign = sign(bytes, at, seed, row);
            self.places[i] = at;
            self.signs[i] = sign;
            bits::put(slots, slot(sign), true);
            at = end_of(bytes, at) + 1;
        }
    }

    // Looks for a clause in a window: its number is noted with every clause that has the same literals and no number yet. No clause is
    // looked at where its slot is not there. The slot is taken out where no clause without a number has it. Returns how many have it.
    fn scan(
        &self,
        bytes: &[u8],
        spot: Spot,
        count: usize,
        firsts: &mut [u32; 1024],
        slots: &mut [u8],
        row: &mut Row,
    ) -> usize
        requires { Scannable bytes.now spot count self.now.places self.now.signs firsts.old slots.old }
        ensures { Scanned bytes.now spot count self.now.places self.now.signs firsts.old
            firsts.new slots.new
            × (result ≤ most) }
    {
        let here = slot(spot.sign);
        if !bits::has(slots, here) {
            return 0;
        }
        let mut left = 0;
        for i in 0..count {
            if slot(self.signs[i]) == here {
                let first = first_after(bytes, self.places[i], self.signs[i], firsts[i], spot, row);
                firsts[i] = first;
                left += usize::from(first == NONE);
            }
        }
        if left == 0 {
            bits::put(slots, here, false);
        }
        left
    }
}

// Looks for every clause up to the end of a window in it, in order. It is given up when more than `limit` clauses were left by those
// that have their slot.
fn search(
    bytes: &[u8],
    start: u32,
    place: usize,
    count: usize,
    seed: u32,
    limit: usize,
    row: &mut Row,
) -> Option<[u32; 1024]>
    requires { Searchable bytes.now start place count seed }
    ensures { Searched bytes.now start count limit result }
{
    let end = start + count as u32;
    let mut window = Window {
        places: [0; 1024],
        signs: [0; 1024],
    };
    let mut slots = [0; 8192];
    let mut firsts = [NONE; 1024];
    window.note(bytes, place, count, seed, &mut slots, row);
    let mut misses = 0;
    let mut at = 0;
    for j in 0..end {
        let sign = sign(bytes, at, seed, row);
        let spot = Spot {
            number: j,
            place: at,
            sign,
        };
        misses += window.scan(bytes, spot, count, &mut firsts, &mut slots, row);
        if misses > limit {
            return None;
        }
        at = end_of(bytes, at) + 1;
    }
    Some(firsts)
}

// The first clauses that have the same literals as those of a window. Where a search is given up, it is begun again with the next seed.
pub fn first_clauses(
    bytes: &[u8],
    start: u32,
    place: usize,
    count: usize,
    from: u32,
    row: &mut Row,
) -> Firsts
    requires { Searchable bytes.now start place count from }
    ensures { FirstsFound bytes.now start count result }
{
    for seed in from..LAST {
        if let Some(firsts) = search(bytes, start, place, count, seed, MISSES, row) {
            return Firsts { seed, firsts };
        }
    }
    let Some(firsts) = search(bytes, start, place, count, LAST, ALL, row) else {
        unreachable!()
    };
    Firsts { seed: LAST, firsts }
}
