// What is asked of every object at once: all that is under something of a set, by rounds over the rows.
ghost use Rattle.std.specs.Prelude.{◌≡◌};
ghost use Rattle.reach.specs.Words.{SetOf, bit};
ghost use Rattle.reach.specs.Tests.{Some};
ghost use Rattle.reach.specs.Tables.{view};
ghost use Rattle.reach.specs.Reach.{InUse, Under};
ghost use Rattle.reach.specs.Asking.{reach_of, UnderSomeBy};
ghost use Rattle.reach.specs.Surveys.{Whose};

use crate::sets::{Members, just, only_if};
use crate::surveying::masks_of;
use crate::{Masks, Objects, Policy};

// All that is under something of the set. A round goes through the objects that are not found yet, and finds those that are directly in a
// group found; the last one finds nothing.
pub fn descend(memberships: &[u64; 64], m: Masks, set: u64) -> u64
    ensures { Whose memberships.now m (λ p. SetOf result (λ x. Some 64 (λ g. (bit set g ≡ 1) × Under (view p) x g))) }
{
    let mut found = set & m.objects;
    let mut done: u64 = 0;
    while found != done {
        done = found;
        for h in Members(m.objects & !found) {
            found |= only_if(memberships[h] & found & m.groups != 0, 1 << h);
        }
    }
    found
}

impl<'a> Objects<'a> {
    // Those of the one set that are in use and under nothing of the other.
    pub fn not_under(self, set: u64, over: u64) -> u64
        ensures { SetOf result (λ x. (bit set x ≡ 1) × InUse (view (reach_of self.entry.sorts.now self.entry.memberships.now)) x ×
            (UnderSomeBy self.entry.sorts.now self.entry.memberships.now over x → ⊥)) }
    {
        let m = masks_of(self.sorts);
        let under = descend(self.memberships, m, over);
        set & m.objects & !under
    }
}

impl Policy {
    // All that is under g, as a set.
    pub fn under_set(self, g: u8) -> u64
        ensures { SetOf result (λ x. Under (view self) x g) }
    {
        let sorts = self.sorts;
        let memberships = self.memberships;
        descend(&memberships, masks_of(&sorts), just(g))
    }
}
