// What a program reads, all of its input or as much as there is room for, and what it prints for it.

#![tactic(auto)]

ghost use Rattle.std.specs.Prelude.{◌≡◌, ◌<◌, ◌≤◌, ◌++◌, ◌^◌, List, ℕ, length, take, IfOk, OnOk, IfSome};
ghost use Rattle.std.specs.Io.KnownBytes.{Appends, Consumes, IsAtEnd};

use std::io;
use std::io::{Read, Write};

// What a program says of its input, in at most ROOM bytes: of an input of more than 65,536 the same as of any longer one that begins so. A
// buffer that has room for more than these thus has room for enough of any input.
pub trait Answer<const ROOM: usize> {
    ghost output: { List ℕ → List ℕ };

    fn answer(input: &[u8], text: &mut [u8; ROOM]) -> usize
        ensures fits { result ≤ ROOM }
        ensures value { result ≡ length (output input.now) }
        ensures text_after { take result text.new ≡ output input.now };

    // No buffer is larger.
    ghost room: { ROOM < 2 ^ 63 };

    // What stands behind them changes nothing.
    ghost longer: { (front rest : List ℕ) → 65536 < length front → output (front ++ rest) ≡ output front };
}

// Reads until the input ends or the buffer is full, and answers how many bytes came: they are the buffer's first, and the first that the
// input had left. Where they don't fill the buffer, it had no more.
pub fn read_full<R: Read>(reader: &mut R, buffer: &mut [u8]) -> io::Result<usize>
    ensures in_bounds { IfOk result (λ n. n ≤ length buffer.new) }
    ensures bytes { IfOk result (λ n. Consumes (R.remaining reader.old) (R.remaining reader.new) (take n buffer.new)) }
    ensures end { IfOk result (λ n. n < length buffer.new → IsAtEnd (R.remaining reader.new)) }
{
    // The loop goes by places: `read_exact` of the library fails at an input that ends before, and `read_to_end` needs a heap.
    let mut done: usize = 0;
    while done < buffer.len() {
        let more = reader.read(&mut buffer[done..])?;
        if more == 0 {
            break;
        }
        done = done + more;
    }
    Ok(done)
}

// Reads the input, and prints what the program says of all of it. An error prints nothing, or is that of the printing.
pub fn run<const ROOM: usize, A: Answer<ROOM>, R: Read, W: Write>(
    reader: &mut R,
    writer: &mut W,
) -> io::Result<()>
    ensures { OnOk result (IfSome (R.remaining reader.old) (λ input.
        Appends (W.contents writer.old) (W.contents writer.new) (A.output input))) }
{
    let mut input = [0u8; 65537];
    let read = read_full(reader, &mut input)?;
    let mut text = [0u8; ROOM];
    let n = A::answer(&input[..read], &mut text);
    writer.write_all(&text[..n])
}
