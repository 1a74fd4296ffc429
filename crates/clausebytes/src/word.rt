// Words: literals as 32-bit numbers in two's complement, and the bytes that they take.
ghost use Rattle.std.specs.Prelude.{◌≡◌, ◌+◌, ◌-◌, ◌%◌, ◌^◌, ◌<◌, ◌≤◌, length};
ghost use Rattle.laws.specs.Numbers.{little_at};
ghost use Rattle.clausal.specs.Clauses.{word_of};
ghost use Rattle.clausebytes.specs.Words.{literal_of};
ghost use Rattle.clausebytes.specs.Inner.Checks.{room_of};

// The first number that has the sign bit.
pub const SIGN: u32 = 2_147_483_648;

// The two's complement of a number.
pub fn complement(number: u32) -> u32
    ensures { result ≡ (2 ^ 32 - number) % 2 ^ 32 }
{
    number.wrapping_neg()
}

// The number of a literal.
pub fn word(plain: bool, variable: u32) -> u32
    requires { 0 < variable }
    ensures { result ≡ word_of plain variable }
{
    if plain {
        return variable;
    }
    complement(variable)
}

// The magnitude of a word: the variable of its literal.
pub fn magnitude(word: u32) -> u32
    ensures { result ≡ (literal_of word).variable }
{
    if word < SIGN {
        return word;
    }
    complement(word)
}

// The word in the four bytes from `at` on.
pub fn word_at(bytes: &[u8], at: usize) -> u32
    requires { at + 4 ≤ length bytes.now }
    ensures { result ≡ little_at 4 bytes.now at }
{
    u32::from_le_bytes([bytes[at], bytes[at + 1], bytes[at + 2], bytes[at + 3]])
}

// The bytes that clauses take.
pub fn room(clauses: u32, literals: u32) -> usize
    ensures { result ≡ room_of clauses literals }
{
    4 * (literals as usize + clauses as usize)
}
