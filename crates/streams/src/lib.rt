// Reading and writing for the programs, over any reader and writer.
#![tactic(auto)]

ghost use Rattle.std.specs.Prelude.{◌≡◌, ◌≤◌, length, take, true};
ghost use Rattle.std.specs.Io.KnownBytes.{Appends, Consumes};

use std::io::{Read, Write};

// Reads until the buffer is full, the input ends or a read fails: how many octets it put at the front of the buffer. They are the ones that the reader had left.
// Stays: `done` counts octets and no turns, and nobody knows how many reads there are; `read_exact` doesn't say how many octets a short input had.
pub fn read_full<R: Read>(reader: &mut R, buffer: &mut [u8]) -> usize
    ensures bound { result ≤ length buffer.new }
    ensures octets { Consumes (R.remaining reader.old) (R.remaining reader.new) (take result buffer.new) }
{
    let mut done = 0;
    while done < buffer.len() {
        match reader.read(&mut buffer[done..]) {
            Ok(0) => break,
            Ok(n) => done += n,
            Err(_) => break,
        }
    }
    done
}

// Writes the first n octets of a text, or nothing where it has fewer: whether all of them were written. A write that fails ends it.
pub fn write_front<W: Write>(writer: &mut W, text: &[u8], n: usize) -> bool
    ensures whole { result ≡ true → n ≤ length text.now }
    ensures octets { result ≡ true → Appends (W.contents writer.old) (W.contents writer.new) (take n text.now) }
{
    if n <= text.len() {
        return writer.write_all(&text[..n]).is_ok();
    }
    false
}
