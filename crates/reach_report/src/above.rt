// Lines of reach, from the object upward: what an object is under.
// No contract can say what is printed; text.rt says what stands in for it.
use crate::NAMED;
use crate::text::line;
use reach::Policy;
use std::io;
use std::io::Write;

// For each object that the script names, for the last number of the table and for the first past it: all that it is under. It is under what
// it is directly in.
pub fn lines<W: Write>(out: &mut W, p: Policy) -> io::Result<()> {
    for x in (0..NAMED).chain(63..65) {
        line(
            out,
            b"above",
            x,
            p.above(x),
            |g| p.under(x, g) | p.direct(x, g),
        )?;
    }
    Ok(())
}
