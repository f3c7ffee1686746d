// Sound policies: those that a card can hold, and that two clubs which become one must have.

#![tactic(auto)]

ghost use Rattle.reach.specs.Tests.{Decides};
ghost use Rattle.reach.specs.Tables.{view};
ghost use Rattle.soundness.specs.Soundness.{Sound};
ghost use Rattle.soundness.specs.Masked.{RowIn, RowsIn, AppointmentIn, AppointmentsIn, RuleIn, RulesIn};

use reach::{AccessRule, Appointment, Masks, Policy, Post, has};

// The tests below take the masks as a parameter and are no methods of them: `Masks` is a type of reach, and a type around it would say no more.

// Whether all that x is stored as directly in is a group, and x in use if anything is stored.
fn row_fits(row: u64, m: Masks, x: u8) -> bool
    ensures { Decides result (RowIn m row x) }
{
    if row == 0 {
        return true;
    }
    if row & !m.groups != 0 {
        return false;
    }
    has(m.objects, x)
}

// Whether every stored membership is of an object in use in a group.
fn memberships_fit(memberships: &[u64; 64], m: Masks) -> bool
    ensures { Decides result (RowsIn m memberships.now) }
{
    (0u8..64)
        .zip(memberships)
        .all(|(x, row)| row_fits(*row, m, x))
}

// Whether an appointment, if it stands, has a user for its holder and groups where it should, and 0 for a B that is not read.
fn appointment_fits(w: Appointment, m: Masks) -> bool
    ensures { Decides result (AppointmentIn m w) }
{
    if !w.standing() {
        return true;
    }
    if w.kind == Post::Administrator as u8 {
        return has(m.users, w.holder) & has(m.groups, w.a) & has(m.groups, w.b);
    }
    has(m.users, w.holder) & has(m.groups, w.a) & (w.b == 0)
}

// Whether every appointment that stands does.
fn appointments_fit(appointments: &[Appointment; 32], m: Masks) -> bool
    ensures { Decides result (AppointmentsIn m appointments.now) }
{
    appointments.iter().all(|w| appointment_fits(*w, m))
}

// Whether a rule, if it is in use, has two groups and some operation.
fn rule_fits(r: AccessRule, m: Masks) -> bool
    ensures { Decides result (RuleIn m r) }
{
    if !r.used {
        return true;
    }
    has(m.groups, r.users) & has(m.groups, r.targets) & (r.operations != 0)
}

// Whether every rule in use does.
fn rules_fit(rules: &[AccessRule; 64], m: Masks) -> bool
    ensures { Decides result (RulesIn m rules.now) }
{
    rules.iter().all(|r| rule_fits(*r, m))
}

// Whether the policy is sound.
pub fn is_sound(p: Policy) -> bool
    ensures { Decides result (Sound (view p)) }
{
    let m = p.masks();
    let memberships = memberships_fit(&p.memberships, m);
    let appointments = appointments_fit(&p.appointments, m);
    let rules = rules_fit(&p.rules, m);
    let owners = !p.orphaned();
    memberships & appointments & rules & owners
}
