// A policy answers its questions itself: what a user owns, manages and administers, and what he is permitted. What is asked of a named
// object climbs from it; what is asked of every object at once goes by rounds over the rows. Each takes the tables that it needs by `let`: to
// lend what is in a policy held by value copies all of it.
ghost use Rattle.std.specs.Prelude.{◌≡◌};
ghost use Rattle.reach.specs.Words.{SetOf};
ghost use Rattle.reach.specs.Tables.{view};
ghost use Rattle.reach.specs.Privileges.{Owns, Manages, Administers, Permitted};
ghost use Rattle.reach.specs.Privileges.{owns, manages, administers, permitting, orphaned};
ghost use Rattle.reach.specs.Asking.{PostsOf, held_of, PlacingOf};

use crate::appointments::{covers_pair, given_to, posts_of, sides_of};
use crate::rounds::descend;
use crate::ruling::{covering, granted_over};
use crate::surveying::masks_of;
use crate::{Held, Objects, Over, Placing, Policy, Posts};

impl Policy {
    // What u is appointed over, as an owner and as a manager: nothing, if he is no user.
    pub fn posts(self, u: u8) -> Posts
        ensures { PostsOf (view self) u result }
    {
        if !self.is_user(u) {
            return Posts::default();
        }
        let appointments = self.appointments;
        posts_of(&appointments, u)
    }

    // All that u owns.
    pub fn owned(self, u: u8) -> u64
        ensures { SetOf result (λ x. Owns (view self) u x) }
    {
        let sorts = self.sorts;
        let memberships = self.memberships;
        let appointments = self.appointments;
        let objects = Objects {
            sorts: &sorts,
            memberships: &memberships,
        };
        if !objects.is_user(u) {
            return 0;
        }
        let posts = posts_of(&appointments, u);
        descend(&memberships, masks_of(&sorts), posts.owner)
    }

    // All that u manages.
    pub fn managed(self, u: u8) -> u64
        ensures { SetOf result (λ x. Manages (view self) u x) }
    {
        let sorts = self.sorts;
        let memberships = self.memberships;
        let appointments = self.appointments;
        let objects = Objects {
            sorts: &sorts,
            memberships: &memberships,
        };
        if !objects.is_user(u) {
            return 0;
        }
        let posts = posts_of(&appointments, u);
        descend(&memberships, masks_of(&sorts), posts.manager)
    }

    // Whether u owns x.
    pub fn owns(self, u: u8, x: u8) -> bool
        ensures { result ≡ owns self u x }
    {
        let sorts = self.sorts;
        let memberships = self.memberships;
        let appointments = self.appointments;
        let objects = Objects {
            sorts: &sorts,
            memberships: &memberships,
        };
        if !objects.is_user(u) {
            return false;
        }
        posts_of(&appointments, u).owner & objects.above(x) != 0
    }

    // Whether u manages x.
    pub fn manages(self, u: u8, x: u8) -> bool
        ensures { result ≡ manages self u x }
    {
        let sorts = self.sorts;
        let memberships = self.memberships;
        let appointments = self.appointments;
        let objects = Objects {
            sorts: &sorts,
            memberships: &memberships,
        };
        if !objects.is_user(u) {
            return false;
        }
        posts_of(&appointments, u).manager & objects.above(x) != 0
    }

    // What u holds over x and over y, what he administers of the two, and whether x is directly in y: what is asked of a request that
    // names two objects, asked at once. Who is no user holds nothing.
    pub fn held(self, u: u8, x: u8, y: u8) -> Held
        ensures { result ≡ held_of self u x y }
    {
        let sorts = self.sorts;
        let memberships = self.memberships;
        let appointments = self.appointments;
        let objects = Objects {
            sorts: &sorts,
            memberships: &memberships,
        };
        let over_x = objects.above(x);
        let over_y = objects.above(y);
        let given = given_to(&appointments, u, over_x, over_y);
        let user = objects.is_user(u);
        let first = Over {
            owned: user & (given.posts.owner & over_x != 0),
            managed: user & (given.posts.manager & over_x != 0),
        };
        let second = Over {
            owned: user & (given.posts.owner & over_y != 0),
            managed: user & (given.posts.manager & over_y != 0),
        };
        Held {
            first,
            second,
            pair: user & given.pair,
            direct: objects.direct(x, y),
        }
    }

    // What u is appointed over, all that x is under and all that y is under, and whether x is directly in y: what is asked of a request
    // that puts x into y, asked at once.
    pub fn placing(self, u: u8, x: u8, y: u8) -> Placing
        ensures { PlacingOf self u x y result }
    {
        let sorts = self.sorts;
        let memberships = self.memberships;
        let objects = Objects {
            sorts: &sorts,
            memberships: &memberships,
        };
        Placing {
            posts: self.posts(u),
            first: objects.above(x),
            second: objects.above(y),
            direct: objects.direct(x, y),
        }
    }

    // All b such that u administers the pair (a, b).
    pub fn administered(self, u: u8, a: u8) -> u64
        ensures { SetOf result (λ b. Administers (view self) u a b) }
    {
        let sorts = self.sorts;
        let memberships = self.memberships;
        let appointments = self.appointments;
        let objects = Objects {
            sorts: &sorts,
            memberships: &memberships,
        };
        if !objects.is_user(u) {
            return 0;
        }
        let sides = sides_of(&appointments, u, objects.above(a));
        descend(&memberships, masks_of(&sorts), sides.second)
    }

    // Whether u administers the pair (a, b).
    pub fn administers(self, u: u8, a: u8, b: u8) -> bool
        ensures { result ≡ administers self u a b }
    {
        let sorts = self.sorts;
        let memberships = self.memberships;
        let appointments = self.appointments;
        let objects = Objects {
            sorts: &sorts,
            memberships: &memberships,
        };
        if !objects.is_user(u) {
            return false;
        }
        covers_pair(&appointments, u, objects.above(a), objects.above(b))
    }

    // The targets on which u is permitted operation k.
    pub fn permitted(self, u: u8, k: u8) -> u64
        ensures { SetOf result (λ x. Permitted (view self) u k x) }
    {
        let sorts = self.sorts;
        let memberships = self.memberships;
        let rules = self.rules;
        let objects = Objects {
            sorts: &sorts,
            memberships: &memberships,
        };
        if !objects.is_user(u) {
            return 0;
        }
        if 8 <= k {
            return 0;
        }
        let m = masks_of(&sorts);
        let granted = granted_over(&rules, k, objects.above(u));
        descend(&memberships, m, granted) & m.targets
    }

    // The lowest place of a rule by which u is permitted operation k on x, or none.
    pub fn permitting(self, u: u8, k: u8, x: u8) -> Option<u8>
        ensures { result ≡ permitting self u k x }
    {
        let sorts = self.sorts;
        let memberships = self.memberships;
        let rules = self.rules;
        let objects = Objects {
            sorts: &sorts,
            memberships: &memberships,
        };
        if !(objects.is_user(u) & objects.is_target(x) & (k < 8)) {
            return None;
        }
        covering(&rules, k, objects.above(u), objects.above(x))
    }

    // Whether some object in use has no owner.
    pub fn orphaned(self) -> bool
        ensures { result ≡ orphaned self }
    {
        let sorts = self.sorts;
        let memberships = self.memberships;
        let appointments = self.appointments;
        let objects = Objects {
            sorts: &sorts,
            memberships: &memberships,
        };
        objects.ownerless(&appointments)
    }
}
