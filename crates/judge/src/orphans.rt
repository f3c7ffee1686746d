// Check 12: what TAKE and DISMISS would leave without an owner. It is asked of the tables after the request: each changes one of them.
ghost use Rattle.std.specs.Prelude.{◌≡◌};
ghost use Rattle.rules.specs.declared.Request.TheVariants.{Take, Dismiss};
ghost use Rattle.rules.specs.Refusals.{orphan};

use reach::{Objects, Policy, dismiss, take_out};

// Whether TAKE of x from g leaves an object without an owner.
pub fn take_orphans(p: &Policy, x: u8, g: u8) -> bool
    ensures { result ≡ orphan p.now (Take x g) }
{
    let mut memberships = p.memberships;
    take_out(&mut memberships, x, g);
    let after = Objects {
        sorts: &p.sorts,
        memberships: &memberships,
    };
    after.ownerless(&p.appointments)
}

// Whether DISMISS of place i does.
pub fn dismiss_orphans(p: &Policy, i: u8) -> bool
    ensures { result ≡ orphan p.now (Dismiss i) }
{
    let mut appointments = p.appointments;
    dismiss(&mut appointments, i);
    p.objects().ownerless(&appointments)
}
