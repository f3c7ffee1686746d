// Lines of reach: what is under an object.
// No contract can say what is printed; text.rt says what stands in for it.
use crate::NAMED;
use crate::text::line;
use reach::Policy;
use std::io;
use std::io::Write;

// For each object that the script names, for the last number of the table and for the first past it: all that is under it. What is directly in
// it is under it.
pub fn lines<W: Write>(out: &mut W, p: Policy) -> io::Result<()> {
    for g in (0..NAMED).chain(63..65) {
        line(
            out,
            b"under",
            g,
            p.under_set(g),
            |x| p.under(x, g) | p.direct(x, g),
        )?;
    }
    Ok(())
}
