// The line of the orphans: the objects in use that no user owns.
// No contract can say what is printed; text.rt says what stands in for it.
ghost use Rattle.reach.specs.Words.{SetOf};
ghost use Rattle.reach.specs.Tests.{Some};
ghost use Rattle.reach.specs.Tables.{view};
ghost use Rattle.reach.specs.Privileges.{Owns, Orphan};

use crate::text::{doubt, item, words};
use reach::{Policy, has};
use std::io;
use std::io::Write;

// All that some user owns.
fn owned_by_any(p: Policy) -> u64
    ensures { SetOf result (λ x. Some 64 (λ u. Owns (view p) u x)) }
{
    let mut set = 0;
    for u in 0..64 {
        set |= p.owned(u);
    }
    set
}

// The objects in use, without what some user owns.
fn orphans(p: Policy, owned: u64) -> u64
    requires { SetOf owned (λ x. Some 64 (λ u. Owns (view p) u x)) }
    ensures { SetOf result (Orphan (view p)) }
{
    p.masks().objects & !owned
}

// The orphans, and a mark where the board's own question of whether there are any was answered otherwise.
pub fn line<W: Write>(out: &mut W, p: Policy) -> io::Result<()> {
    words(out, b"orphans:")?;
    let owned = owned_by_any(p);
    let set = orphans(p, owned);
    for x in 0..64 {
        item(out, set, x, p.in_use(x) & !has(owned, x))?;
    }
    doubt(out, p.orphaned() != (set != 0))?;
    words(out, b"\n")
}
