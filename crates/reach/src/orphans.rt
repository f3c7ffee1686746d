// Whether some object in use has no owner, asked of the lent tables.
ghost use Rattle.std.specs.Prelude.{◌≡◌, ℕ, ◌≤◌};
ghost use Rattle.reach.specs.Privileges.{orphaned};
ghost use Rattle.reach.specs.Asking.{tables_of, Looking, Closed};

use crate::appointments::owners_from;
use crate::sets::Members;
use crate::{Appointment, Objects, Sort};

// The groups that are found owned, and the objects in use that are not found owned yet, as sets.
#[derive(Clone, Copy)]
struct Found {
    groups: u64,
    left: u64,
}

// One pass over the objects: one in use is owned if it is directly in a group that is found owned by then, or in the set; else it is left.
fn scan(objects: Objects, set: u64) -> Found
    ensures { Looking objects.entry.sorts.now objects.entry.memberships.now set 64 result.groups result.left }
{
    let sorts = objects.sorts;
    let memberships = objects.memberships;
    let mut groups: u64 = 0;
    let mut left: u64 = 0;
    for x in 0..64 {
        let sort = sorts[x];
        if sort == 0 {
            continue;
        }
        if sort > 3 {
            continue;
        }
        if memberships[x] & groups == 0 {
            if (set >> x) & 1 == 0 {
                left |= 1u64 << x;
                continue;
            }
        }
        if sort != Sort::Group as u8 {
            continue;
        }
        groups |= 1u64 << x;
    }
    Found { groups, left }
}

// One round over what is left: what is directly in a group that is found owned by then is left no longer.
fn round(objects: Objects, had: u64, waiting: u64) -> Found
    ensures { (result.left ≤ waiting) ×
        (result.left ≡ waiting → Closed objects.entry.memberships.now result.groups result.left) ×
        ((set : ℕ) → Looking objects.entry.sorts.now objects.entry.memberships.now set 64 had waiting →
        Looking objects.entry.sorts.now objects.entry.memberships.now set 64 result.groups result.left) }
{
    let sorts = objects.sorts;
    let memberships = objects.memberships;
    let mut groups = had;
    let mut left = waiting;
    for h in Members(waiting) {
        if memberships[h] & groups == 0 {
            continue;
        }
        let one = 1u64 << h;
        left &= !one;
        if sorts[h] == Sort::Group as u8 {
            groups |= one;
        }
    }
    Found { groups, left }
}

impl<'a> Objects<'a> {
    // Whether some object in use has no owner by these appointments: whether rounds over what a pass has left, the last of which finds
    // nothing, leave any.
    pub fn ownerless(self, appointments: &[Appointment; 32]) -> bool
        ensures { result ≡ orphaned (tables_of self.entry.sorts.now self.entry.memberships.now appointments.now) }
    {
        let set = owners_from(self, appointments);
        let first = scan(self, set);
        let mut groups = first.groups;
        let mut left = first.left;
        loop {
            let next = round(self, groups, left);
            if next.left == left {
                return next.left != 0;
            }
            groups = next.groups;
            left = next.left;
        }
    }
}
