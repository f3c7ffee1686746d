// Lines of what is permitted: the targets, each with the lowest place of a rule that permits it.
// No contract can say what is printed; text.rt says what stands in for it.
use crate::NAMED;
use crate::text::{end_of_some, head_of_some, item, place};
use reach::Policy;
use std::io;
use std::io::Write;

// The target x, if it is in the set, with its place.
fn item_at<W: Write>(out: &mut W, set: u64, x: u8, found: Option<u8>) -> io::Result<()> {
    item(out, set, x, found.is_some())?;
    if let Some(i) = found {
        place(out, i)?;
    }
    Ok(())
}

// The targets on which u is permitted operation k, each with its place; no line where there is none.
fn line<W: Write>(out: &mut W, p: Policy, u: u8, k: u8) -> io::Result<()> {
    let set = p.permitted(u, k);
    head_of_some(out, set, b"permitted", u, k)?;
    for x in 0..64 {
        item_at(out, set, x, p.permitting(u, k, x))?;
    }
    end_of_some(out, set)
}

// The lines of each object that the script names, by the operation. The first that is none, 8, is asked too.
pub fn lines<W: Write>(out: &mut W, p: Policy) -> io::Result<()> {
    for u in 0..NAMED {
        for k in 0..=8 {
            line(out, p, u, k)?;
        }
    }
    Ok(())
}
