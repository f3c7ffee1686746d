// Check 11: what PUT would hand over.
ghost use Rattle.std.specs.Prelude.{◌≡◌, ℕ, ◌<◌, get_or};
ghost use Rattle.reach.specs.Words.{bit, SetOf};
ghost use Rattle.reach.specs.Tests.{Some, Decides};
ghost use Rattle.reach.specs.Tables.{sort_in, no_appointment, view};
ghost use Rattle.gains.specs.Lacking.{HolderOf, SomeLacks, Above};

use reach::{Appointment, Members, Objects, Policy, Post, has, just, only_if};

// Those who hold something above the object, and those who hold something above the group, as sets.
#[derive(Clone, Copy)]
struct Who {
    object: u64,
    group: u64,
}

// The holder of this appointment, if it is of that kind: for the object if its A is in the one set, and for the group if it is in the other.
fn holder_of(w: Appointment, kind: u8, object: u64, group: u64) -> Who
    ensures object { SetOf result.object (λ u. (u < 64) × HolderOf w kind object u) }
    ensures group { SetOf result.group (λ u. (u < 64) × HolderOf w kind group u) }
{
    if w.kind != kind {
        return Who {
            object: 0,
            group: 0,
        };
    }
    let holder = just(w.holder);
    Who {
        object: only_if(has(object, w.a), holder),
        group: only_if(has(group, w.a), holder),
    }
}

// All who hold an appointment of that kind whose A is in the one set, and in the other: the table is gone through once for both.
fn holders(appointments: &[Appointment; 32], kind: u8, object: u64, group: u64) -> Who
    ensures object { SetOf result.object (λ u. Some 32 (λ i. (u < 64) × HolderOf (get_or appointments.now i no_appointment) kind object u)) }
    ensures group { SetOf result.group (λ u. Some 32 (λ i. (u < 64) × HolderOf (get_or appointments.now i no_appointment) kind group u)) }
{
    let mut had = 0;
    let mut got = 0;
    for w in appointments {
        let more = holder_of(*w, kind, object, group);
        had |= more.object;
        got |= more.group;
    }
    Who {
        object: had,
        group: got,
    }
}

// Whether some one of these is a user.
fn some_user(objects: Objects, set: u64) -> bool
    ensures { Decides result (Some 64 (λ h. (bit set h ≡ 1) × (sort_in objects.entry.sorts.now h ≡ 2))) }
{
    for h in Members(set) {
        if objects.is_user(h as u8) {
            return true;
        }
    }
    false
}

// Whether some user holds the group and not the object, as an owner or as a manager.
pub fn hands_over(p: &Policy, object: u64, group: u64) -> bool
    ensures { (x g : ℕ) → Above p.now x object → Above p.now g group → Decides result (SomeLacks (view p.now) x g) }
{
    let appointments = &p.appointments;
    let owners = holders(appointments, Post::Owner as u8, object, group);
    let managers = holders(appointments, Post::Manager as u8, object, group);
    let more = (owners.group & !owners.object) | (managers.group & !managers.object);
    some_user(p.objects(), more)
}
