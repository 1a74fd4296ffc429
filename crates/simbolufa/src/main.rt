// The program between standard input and standard output. What it prints is decided in the crate `program`.
#![tactic(auto)]

ghost use Rattle.std.specs.Prelude.{◌<◌, IfOk, length, take};
ghost use Rattle.std.specs.Io.{ReadsAtMost};
ghost use Rattle.std.specs.Io.KnownBytes.{Consumes, IsAtEnd};

use nodefile::MOST_BYTES;
use program::BUFFER;
use std::io;
use std::io::{Read, Write};

// Reads until the buffer is full or the input ends, and returns how many bytes stand at its start then.
fn read_full<R: Read>(input: &mut R, text: &mut [u8]) -> io::Result<usize>
    ensures bound { ReadsAtMost result text.new }
    ensures bytes { IfOk result (λ n. Consumes (R.remaining input.old) (R.remaining input.new) (take n text.new)) }
    ensures whole { IfOk result (λ n. n < length text.new → IsAtEnd (R.remaining input.new)) }
{
    let mut done = 0;
    while done < text.len() {
        let count = input.read(&mut text[done..])?;
        if count == 0 {
            break;
        }
        done += count;
    }
    Ok(done)
}

// Reads a node file, and writes what is printed for it. One byte more than a node file may have shows that it is longer.
fn main(rt: HostRuntime) -> io::Result<()> {
    let mut text = [0u8; MOST_BYTES + 1];
    let mut out = [0u8; BUFFER];
    let length = read_full(&mut rt.stdin(), &mut text)?;
    let printed = program::print(&text[..length], &mut out);
    rt.stdout().write_all(&out[..printed])
}
