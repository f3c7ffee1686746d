// Objects and places: what a policy holds at a number, as it counts.
ghost use Rattle.std.specs.Prelude.{◌≡◌, get_or, eqb, ltb};
ghost use Rattle.reach.specs.Tables.{counted, sort_number, post_number, sort_in, sort, stored, no_appointment, standing, no_rule, initial};
ghost use Rattle.reach.specs.Reach.{in_use, is_group, is_user, is_target, direct};
ghost use Rattle.reach.specs.Asking.{reach_of};

use crate::sets::has;
use crate::{AccessRule, Appointment, Objects, Policy, Post, Sort};

impl Sort {
    // The sort with this number; none for any other byte.
    #[tactic(auto, unfolding(crate::specs::Tables::counted))]
    pub fn of(number: u8) -> Option<Sort>
        ensures { sort_number result ≡ counted number }
    {
        match number {
            1 => Some(Sort::Group),
            2 => Some(Sort::User),
            3 => Some(Sort::Target),
            _ => None,
        }
    }
}

impl Post {
    // The post with this number; none for any other byte.
    #[tactic(auto, unfolding(crate::specs::Tables::counted))]
    pub fn of(number: u8) -> Option<Post>
        ensures { post_number result ≡ counted number }
    {
        match number {
            1 => Some(Post::Owner),
            2 => Some(Post::Manager),
            3 => Some(Post::Administrator),
            _ => None,
        }
    }
}

// What stands at place i of a table, and past its end the value for none.
fn at<T: Copy, const N: usize>(table: &[T; N], i: u8, none: T) -> T
    ensures { result ≡ get_or table.now i none }
{
    table.get(i as usize).copied().unwrap_or(none)
}

// The sort of x by the lent table, as it counts; none for an empty object or a number past the table.
fn sort_at(sorts: &[u8; 64], x: u8) -> Option<Sort>
    ensures { sort_number result ≡ sort_in sorts.now x }
{
    if x < 64 {
        Sort::of(sorts[x as usize])
    } else {
        None
    }
}

// The appointment at place i; past the table there is none.
pub fn appointment_at(appointments: &[Appointment; 32], i: u8) -> Appointment
    ensures { result ≡ get_or appointments.now i no_appointment }
{
    at(appointments, i, Appointment::default())
}

// The rule at place i; past the table there is none.
pub fn rule_at(rules: &[AccessRule; 64], i: u8) -> AccessRule
    ensures { result ≡ get_or rules.now i no_rule }
{
    at(rules, i, AccessRule::default())
}

impl<'a> Objects<'a> {
    // The sort of object x as it counts; none for an empty object or a number past the table.
    pub fn sort(self, x: u8) -> Option<Sort>
        ensures { sort_number result ≡ sort_in self.entry.sorts.now x }
    {
        sort_at(self.sorts, x)
    }

    // Whether x is an object in use.
    pub fn in_use(self, x: u8) -> bool
        ensures { result ≡ ltb 0 (sort_in self.entry.sorts.now x) }
    {
        sort_at(self.sorts, x).is_some()
    }

    // Whether x is a group.
    pub fn is_group(self, x: u8) -> bool
        ensures { result ≡ eqb (sort_in self.entry.sorts.now x) 1 }
    {
        sort_at(self.sorts, x) == Some(Sort::Group)
    }

    // Whether x is a user, document 01's member.
    pub fn is_user(self, x: u8) -> bool
        ensures { result ≡ eqb (sort_in self.entry.sorts.now x) 2 }
    {
        sort_at(self.sorts, x) == Some(Sort::User)
    }

    // Whether x is a target, document 01's gear.
    pub fn is_target(self, x: u8) -> bool
        ensures { result ≡ eqb (sort_in self.entry.sorts.now x) 3 }
    {
        sort_at(self.sorts, x) == Some(Sort::Target)
    }

    // Whether x is directly in the group g, by a membership that counts.
    pub fn direct(self, x: u8, g: u8) -> bool
        ensures { result ≡ direct (reach_of self.entry.sorts.now self.entry.memberships.now) x g }
    {
        self.in_use(x) & self.is_group(g) & has(at(self.memberships, x, 0), g)
    }
}

impl Appointment {
    // Whether the appointment is one, and not an empty place.
    pub fn standing(self) -> bool
        ensures { result ≡ standing self }
    {
        Post::of(self.kind).is_some()
    }
}

impl Policy {
    // The tables that reach depends on, lent.
    pub fn objects(&self) -> Objects
        ensures sorts { result.sorts.now ≡ self.now.sorts }
        ensures memberships { result.memberships.now ≡ self.now.memberships }
    {
        Objects {
            sorts: &self.sorts,
            memberships: &self.memberships,
        }
    }

    // Document 01's founding: group 0, user 1 directly in it and its owner, and nothing else.
    pub fn initial() -> Policy
        ensures { result ≡ initial }
    {
        let mut p = Policy {
            sorts: [0; 64],
            memberships: [0; 64],
            appointments: [Appointment::default(); 32],
            rules: [AccessRule::default(); 64],
        };
        p.sorts[0] = Sort::Group as u8;
        p.sorts[1] = Sort::User as u8;
        p.memberships[1] = 1;
        p.appointments[0] = Appointment {
            kind: Post::Owner as u8,
            holder: 1,
            a: 0,
            b: 0,
        };
        p
    }

    // The sort of object x as it counts; none for an empty object or a number past the table. The sorts are taken by `let`, here and below,
    // which copies them alone: to lend them from a policy held by value copies all of it.
    #[tactic(auto, unfolding(crate::specs::Tables::sort))]
    pub fn sort(self, x: u8) -> Option<Sort>
        ensures { sort_number result ≡ sort self x }
    {
        let sorts = self.sorts;
        sort_at(&sorts, x)
    }

    // Whether x is an object in use.
    pub fn in_use(self, x: u8) -> bool
        ensures { result ≡ in_use self x }
    {
        self.sort(x).is_some()
    }

    // Whether x is a group.
    pub fn is_group(self, x: u8) -> bool
        ensures { result ≡ is_group self x }
    {
        self.sort(x) == Some(Sort::Group)
    }

    // Whether x is a user, document 01's member.
    pub fn is_user(self, x: u8) -> bool
        ensures { result ≡ is_user self x }
    {
        self.sort(x) == Some(Sort::User)
    }

    // Whether x is a target, document 01's gear.
    pub fn is_target(self, x: u8) -> bool
        ensures { result ≡ is_target self x }
    {
        self.sort(x) == Some(Sort::Target)
    }

    // Whether x is stored as directly in g.
    #[tactic(auto, unfolding(crate::specs::Tables::stored))]
    pub fn stored(self, x: u8, g: u8) -> bool
        ensures { result ≡ stored self x g }
    {
        let memberships = self.memberships;
        has(at(&memberships, x, 0), g)
    }

    // Whether x is directly in the group g, by a membership that counts.
    pub fn direct(self, x: u8, g: u8) -> bool
        ensures { result ≡ direct self x g }
    {
        let sorts = self.sorts;
        let memberships = self.memberships;
        let objects = Objects {
            sorts: &sorts,
            memberships: &memberships,
        };
        objects.direct(x, g)
    }
}
