// The line of a refusal.
ghost use Rattle.std.specs.Prelude.{◌+◌, ◌≡◌, ◌≤◌, length, Err};
ghost use Rattle.program.specs.Printed.{buffer_bytes, field, refusal_line, Shows};
ghost use Rattle.program.specs.Inner.Sizes.{most_field, PutShort};

use answer::{Refusal, shown, tell};
use text::write::{put_bytes, put_field};

// Writes a number and a byte behind it where there is room for any number, and returns the next place.
fn put(out: &mut [u8], at: usize, number: u32, end: u8) -> usize
    requires { at + most_field ≤ length out.old }
    ensures { PutShort (field number end) out.old at result out.new }
{
    put_field(out, at, number, end)
}

// Writes the line of a refusal at the start of a buffer, and returns its length.
pub fn put_refusal(refusal: Refusal, out: &mut [u8]) -> usize
    requires { length out.old ≡ buffer_bytes }
    ensures { Shows (refusal_line (Err refusal)) out.old result out.new }
{
    let told = tell(Err(refusal));
    let number = put_bytes(out, 0, b"refused\t");
    let place = put(out, number, told.number, b'\t');
    put(out, place, shown(told.place), b'\n')
}
