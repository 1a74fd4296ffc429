// Rows of bits: bit n of a row is bit n % 8 of byte n / 8.
#![tactic(auto)]

ghost use Rattle.std.specs.Prelude.{◌≡◌, ◌*◌, ◌<◌, length};
ghost use Rattle.bits.specs.Inner.Rows.{has_bit, byte_to, row_to};

// Whether a row has bit n.
pub fn has(row: &[u8], n: usize) -> bool
    requires { n < 8 * length row.now }
    ensures { result ≡ has_bit row.now n }
{
    (row[n / 8] >> (n % 8)) % 2 == 1
}

// A byte whose bit k is there or not.
fn byte_to(byte: u8, k: usize, there: bool) -> u8
    requires { k < 8 }
    ensures { result ≡ byte_to byte k there }
{
    if (byte >> k) % 2 == 1 {
        if there {
            return byte;
        }
        return byte - (1 << k);
    }
    if there {
        return byte + (1 << k);
    }
    byte
}

// Puts bit n into a row, or takes it out.
pub fn put(row: &mut [u8], n: usize, there: bool)
    requires { n < 8 * length row.old }
    ensures { row.new ≡ row_to row.old n there }
{
    let at = n / 8;
    row[at] = byte_to(row[at], n % 8, there);
}
