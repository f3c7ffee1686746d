// Reach, worked from the object upward.
ghost use Rattle.std.specs.Prelude.{◌≡◌};
ghost use Rattle.reach.specs.Words.{SetOf};
ghost use Rattle.reach.specs.Tables.{view};
ghost use Rattle.reach.specs.Reach.{Under, under};
ghost use Rattle.reach.specs.Asking.{UnderBy};

use crate::sets::{has, only_if};
use crate::{Objects, Policy, Sort};

// The one set, or the other if that is empty.
fn first_of(one: u64, other: u64) -> u64
    ensures { (one ≡ 0 → result ≡ other) × ((one ≡ 0 → ⊥) → result ≡ one) }
{
    if one == 0 { other } else { one }
}

impl<'a> Objects<'a> {
    // All that x is under, itself too; nothing for an empty object or a number past the table. The climb goes by levels: `left` is what is
    // left of a level, and `over` what the rows gone through have. Where nothing is left, what of that was not met before is the next level;
    // so a circle ends. There is one loop and no other, since the processor cannot guess where a level ends.
    pub fn above(self, x: u8) -> u64
        ensures { SetOf result (λ g. UnderBy self.entry.sorts.now self.entry.memberships.now x g) }
    {
        if !self.in_use(x) {
            return 0;
        }
        let sorts = self.sorts;
        let memberships = self.memberships;
        let n = x as usize;
        let mut found = 1u64 << x;
        let mut over = memberships[n];
        let mut left = over & !found;
        let mut met = found | left;
        while left != 0 {
            let h = u64::trailing_zeros(left) as usize;
            let one = 1u64 << h;
            let group = sorts[h] == Sort::Group as u8;
            let row = memberships[h];
            found |= only_if(group, one);
            over |= only_if(group, row);
            let rest = left - one;
            left = first_of(rest, over & !met);
            met |= left;
        }
        found
    }
}

impl Policy {
    // All that x is under, itself too, as a set; none for an empty object or a number past the table.
    pub fn above(self, x: u8) -> u64
        ensures { SetOf result (λ g. Under (view self) x g) }
    {
        let sorts = self.sorts;
        let memberships = self.memberships;
        let objects = Objects {
            sorts: &sorts,
            memberships: &memberships,
        };
        objects.above(x)
    }

    // Whether x is under g.
    pub fn under(self, x: u8, g: u8) -> bool
        ensures { result ≡ under self x g }
    {
        has(self.above(x), g)
    }
}
