// The literals of a clause in a row of bits: marked, looked up, and wiped out.
ghost use Rattle.std.specs.Prelude.{◌≡◌, ◌<◌};
ghost use Rattle.bits.specs.Inner.Rows.{with_bits, wiped};
ghost use Rattle.sets.specs.Inner.Sets.{clause_from, codes_of, some_is, mix_of, sign_of, seeds};
ghost use Rattle.sets.specs.Inner.Sets.{no_literals, Legible, Signable};

use crate::code::code;
use clausebytes::word::word_at;

// A row of bits for the literals of a clause. Between calls it is without literals.
#[derive(Drop)]
pub struct Row {
    pub bits: [u8; 10_001],
    pub ghost empty: { bits ≡ no_literals },
}

impl Row {
    pub fn new() -> Self
        ensures { result.bits ≡ no_literals }
    {
        Self { bits: [0; 10_001] }
    }
}

// What a literal adds to a signature.
fn mix(seed: u32, code: usize) -> u64
    requires { (seed < seeds) × (code < 80_008) }
    ensures { result ≡ mix_of seed code }
{
    let factor = 2_654_435_761 + 1_000_006 * u64::from(seed);
    let x = (code as u64 + 1) * factor % 4_294_967_296;
    x * x / 131_072
}

// Marks the literals of a clause in a row without literals, and returns its signature.
pub fn mark(bytes: &[u8], from: usize, seed: u32, row: &mut [u8]) -> u64
    requires { Signable bytes.now row.old seed }
    ensures { (result ≡ sign_of seed (clause_from bytes.now from))
        × (row.new ≡ with_bits (codes_of (clause_from bytes.now from)) row.old) }
{
    let mut sign: u64 = 0;
    for i in from..bytes.len() / 4 {
        let word = word_at(bytes, 4 * i);
        if word == 0 {
            return sign;
        }
        let n = code(word, false);
        if !bits::has(row, n) {
            sign += mix(seed, n);
        }
        bits::put(row, n, true);
    }
    sign
}

// Wipes the literals of a clause out of a row.
pub fn wipe(bytes: &[u8], from: usize, row: &mut [u8])
    requires { Legible bytes.now row.old }
    ensures { row.new ≡ wiped (codes_of (clause_from bytes.now from)) row.old }
{
    for i in from..bytes.len() / 4 {
        let word = word_at(bytes, 4 * i);
        if word == 0 {
            return;
        }
        let at = code(word, false) / 8;
        row[at] = 0;
    }
}

// Whether a clause has a literal that is missing in a row; or, where they are turned, one whose negation is there.
pub fn some_is(bytes: &[u8], from: usize, turned: bool, row: &[u8]) -> bool
    requires { Legible bytes.now row.now }
    ensures { result ≡ some_is row.now turned (clause_from bytes.now from) }
{
    for i in from..bytes.len() / 4 {
        let word = word_at(bytes, 4 * i);
        if word == 0 {
            return false;
        }
        if bits::has(row, code(word, turned)) == turned {
            return true;
        }
    }
    false
}
