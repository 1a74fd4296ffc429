// A pen in a lent buffer: with it text is measured first, and then written.
ghost use Rattle.std.specs.Prelude.{◌+◌, ◌≤◌, length};
ghost use Rattle.laws.specs.Inner.Stores.{Stored};
ghost use Rattle.text.specs.Texts.{decimal};
ghost use Rattle.origin.specs.Inner.Pens.{Standing, Drawn};

use text::write::put_number;

#[derive(Clone, Copy)]
pub struct Pen {
    // The place behind what was put.
    pub at: usize,
    // Whether the buffer had room for all of it.
    pub fits: bool,
    // Whether it is written, or only measured.
    pub writing: bool,
}

// Puts bytes from a place on, one by one: as a copy of slices they would ask the host for `memmove`.
fn put_each(out: &mut [u8], at: usize, bytes: &[u8]) -> usize
    requires { at + length bytes.now ≤ length out.old }
    ensures { Stored bytes.now out.old at result out.new }
{
    for i in 0..bytes.len() {
        out[at + i] = bytes[i];
    }
    at + bytes.len()
}

// Puts bytes, where there is room.
pub fn put(out: &mut [u8], pen: Pen, bytes: &[u8]) -> Pen
    requires { Standing pen out.old }
    ensures { Drawn bytes.now out.old pen out.new result }
{
    if !pen.fits {
        return pen;
    }
    if out.len() - pen.at < bytes.len() {
        return Pen { fits: false, ..pen };
    }
    let next = Pen {
        at: pen.at + bytes.len(),
        ..pen
    };
    if !pen.writing {
        return next;
    }
    put_each(out, pen.at, bytes);
    next
}

// Puts a number in decimal.
pub fn put_decimal(out: &mut [u8], pen: Pen, number: u32) -> Pen
    requires { Standing pen out.old }
    ensures { Drawn (decimal number) out.old pen out.new result }
{
    let mut digits = [0u8; 10];
    let end = put_number(&mut digits, 0, number);
    put(out, pen, &digits[..end])
}
