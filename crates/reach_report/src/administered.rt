// Lines of what is administered: the second of each pair, for a user and the first.
// No contract can say what is printed; text.rt says what stands in for it.
use crate::NAMED;
use crate::text::{end_of_some, head_of_some, item};
use reach::Policy;
use std::io;
use std::io::Write;

// All b such that u administers (a, b); no line where there is none, so that the `line` of one number (above.rt) does not serve.
fn line<W: Write>(out: &mut W, p: Policy, u: u8, a: u8) -> io::Result<()> {
    let set = p.administered(u, a);
    head_of_some(out, set, b"administers", u, a)?;
    for b in 0..64 {
        item(out, set, b, p.administers(u, a, b))?;
    }
    end_of_some(out, set)
}

// The lines of each object that the script names, by the first of the pair.
pub fn lines<W: Write>(out: &mut W, p: Policy) -> io::Result<()> {
    for u in 0..NAMED {
        for a in 0..NAMED {
            line(out, p, u, a)?;
        }
    }
    Ok(())
}
