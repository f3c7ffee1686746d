// What stands at a place, and where an entry belongs.
ghost use Rattle.std.specs.Prelude.{◌≡◌, true, ℕ, Option, Some};
ghost use Rattle.snapshot.specs.declared.Entry.{Entry};
ghost use Rattle.snapshot.specs.Card.{known, object_of, appointed_of, granted_of};
ghost use Rattle.snapshot.specs.Loading.{number_of, valid, size_of, store};

use crate::Entry;
use reach::{AccessRule, Appointment, Policy};

// Whether a sort, or the kind of an appointment, is one that counts.
fn known(s: u8) -> bool
    ensures { result ≡ known s }
{
    (1..=3).contains(&s)
}

// What a place of a table holds: a record, if the place is in use.
pub(crate) trait Placed: Copy {
    ghost entry_of: { Self → ℕ → Option Entry };

    fn entry(self, place: u8) -> Option<Entry>
        ensures { result ≡ entry_of self place };
}

// The object of a sort.
impl Placed for u8 {
    ghost entry_of = { object_of };

    fn entry(self, place: u8) -> Option<Entry> {
        known(self).then_some(Entry::Object(place, self))
    }
}

impl Placed for Appointment {
    ghost entry_of = { appointed_of };

    fn entry(self, place: u8) -> Option<Entry> {
        known(self.kind).then_some(Entry::Appointed(place, self.kind, self.holder, self.a, self.b))
    }
}

impl Placed for AccessRule {
    ghost entry_of = { granted_of };

    fn entry(self, place: u8) -> Option<Entry> {
        self.used.then_some(Entry::Granted(place, self.users, self.targets, self.operations))
    }
}

impl Entry {
    // How many bytes its record has.
    pub fn size(self) -> usize
        ensures { result ≡ size_of (Some self) }
    {
        match self {
            Entry::Object(_, _) => 6,
            Entry::Membership(_, _) => 6,
            Entry::Appointed(_, _, _, _, _) => 9,
            Entry::Granted(_, _, _, _) => 8,
        }
    }

    // Where it stands in the order of the file.
    pub fn number(self) -> usize
        ensures { result ≡ number_of (Some self) }
    {
        match self {
            Entry::Object(x, _) => usize::from(x),
            Entry::Membership(x, g) => 64 + 64 * usize::from(x) + usize::from(g),
            Entry::Appointed(i, _, _, _, _) => 4160 + usize::from(i),
            Entry::Granted(i, _, _, _) => 4192 + usize::from(i),
        }
    }

    // Whether it has a place in the tables and is in use there.
    pub fn valid(self) -> bool
        ensures { result ≡ valid (Some self) }
    {
        match self {
            Entry::Object(x, s) => (x < 64) & known(s),
            Entry::Membership(x, g) => (x < 64) & (g < 64),
            Entry::Appointed(i, k, _, _, _) => (i < 32) & known(k),
            Entry::Granted(i, _, _, _) => i < 64,
        }
    }

    // Stores it in its place.
    pub(crate) fn store(self, policy: &mut Policy)
        requires { valid (Some self) ≡ true }
        ensures { policy.new ≡ store policy.old (Some self) }
    {
        match self {
            Entry::Object(x, s) => policy.sorts[usize::from(x)] = s,
            Entry::Membership(x, g) => policy.memberships[usize::from(x)] |= 1 << g,
            Entry::Appointed(i, kind, holder, a, b) => {
                policy.appointments[usize::from(i)] = Appointment { kind, holder, a, b };
            }
            Entry::Granted(i, users, targets, operations) => {
                policy.rules[usize::from(i)] = AccessRule {
                    used: true,
                    users,
                    targets,
                    operations,
                };
            }
        }
    }
}
