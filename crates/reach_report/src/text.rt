// Parts of a line, written to what prints it. No contract can say what the standard output takes: the file stdout, which the program is held
// to and tools/reach_by_hand.py works out by itself, stands in for it.
use reach::has;
use std::io;
use std::io::Write;

// The words as they are.
pub fn words<W: Write>(out: &mut W, text: &[u8]) -> io::Result<()> {
    out.write_all(text)
}

// A number after a space.
pub fn number<W: Write>(out: &mut W, x: u8) -> io::Result<()> {
    write!(out, " {x}")
}

// The place after a number.
pub fn place<W: Write>(out: &mut W, i: u8) -> io::Result<()> {
    write!(out, ":{i}")
}

// A mark that no line should have, where two answers differ.
pub fn doubt<W: Write>(out: &mut W, differ: bool) -> io::Result<()> {
    if differ {
        words(out, b"?")?;
    }
    Ok(())
}

// The number x, if it is in the set, and a mark where the question about x alone was answered otherwise.
pub fn item<W: Write>(out: &mut W, set: u64, x: u8, asked: bool) -> io::Result<()> {
    let listed = has(set, x);
    if listed {
        number(out, x)?;
    }
    doubt(out, listed != asked)
}

// A line that tells of n: the numbers of the set, each with a mark where the question about it alone was answered otherwise.
pub fn line<W: Write, F: Fn(u8) -> bool>(
    out: &mut W,
    title: &[u8],
    n: u8,
    set: u64,
    asked: F,
) -> io::Result<()>
    requires { F.IsAlwaysCallable asked }
{
    words(out, title)?;
    number(out, n)?;
    words(out, b":")?;
    for x in 0..64 {
        item(out, set, x, asked(x))?;
    }
    words(out, b"\n")
}

// The head of a line that tells of u and n, if the set has something to tell.
pub fn head_of_some<W: Write>(out: &mut W, set: u64, title: &[u8], u: u8, n: u8) -> io::Result<()> {
    if set != 0 {
        words(out, title)?;
        number(out, u)?;
        number(out, n)?;
        words(out, b":")?;
    }
    Ok(())
}

// The end of such a line.
pub fn end_of_some<W: Write>(out: &mut W, set: u64) -> io::Result<()> {
    if set != 0 {
        words(out, b"\n")?;
    }
    Ok(())
}
