// Lines of what is held: what a number owns, and what it manages.
// No contract can say what is printed; text.rt says what stands in for it.
use crate::NAMED;
use crate::text::line;
use reach::Policy;
use std::io;
use std::io::Write;

// Two lines for each object that the script names.
pub fn lines<W: Write>(out: &mut W, p: Policy) -> io::Result<()> {
    for u in 0..NAMED {
        line(out, b"owns", u, p.owned(u), |x| p.owns(u, x))?;
        line(out, b"manages", u, p.managed(u), |x| p.manages(u, x))?;
    }
    Ok(())
}
