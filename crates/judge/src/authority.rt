// Checks 8 and 9, by what stands at the place that a request names, and by what the sender holds over two objects: that is asked of the
// policy at once.
ghost use Rattle.std.specs.Prelude.{◌≡◌, ◌||◌, false};
ghost use Rattle.rules.specs.Authority.{may_appoint};
ghost use Rattle.reach.specs.Asking.{held_of};
ghost use Rattle.judge.specs.Kind.{is_use, is_put};
ghost use Rattle.judge.specs.Answering.{allowed_by};
ghost use Rattle.judge.specs.Holding.{governs, looked_at};

use crate::using::used;
use gains::put_verdict;
use reach::{Appointment, Held, Over, Policy, Post, appointment_at, rule_at};
use rules::{Refusal, Request, Verdict};

// The number of no object, where there is no second one: past the table, so that nothing is held over it.
const NONE: u8 = 255;

// What u holds over x and over y. The policy is asked here alone: a question that is called in one place is compiled into it, and copies no more of
// the policy than it reads.
fn held(p: &Policy, u: u8, x: u8, y: u8) -> Held
    ensures { result ≡ held_of p.now u x y }
{
    p.held(u, x, y)
}

// Owns or manages.
fn governs(over: Over) -> bool
    ensures { result ≡ governs over }
{
    over.owned | over.managed
}

// Whether u may make this appointment, and undo it: he owns A, or of an administrator's manages both A and B.
fn may_appoint(p: &Policy, u: u8, w: Appointment) -> bool
    ensures { result ≡ may_appoint p.now u w }
{
    if w.kind == Post::Administrator as u8 {
        let held = held(p, u, w.a, w.b);
        held.first.managed & held.second.managed
    } else {
        held(p, u, w.a, NONE).first.owned
    }
}

// Checks 8 and 9, after those before, kind by kind: a USE that passes is done, by its rule, and of a PUT checks 10 and 11 are asked here too.
#[tactic(auto, unfolding(rules::specs::Refusals::already_so))]
pub fn allowed(p: &Policy, u: u8, q: Request) -> Verdict
    ensures value { result ≡ allowed_by p.now u q }
    ensures looked_at { is_use q ≡ false → is_put q ≡ false → result ≡ looked_at p.now u q }
{
    match q {
        Request::Make { place, group, .. } => {
            Refusal::AlreadySo.if_so(p.objects().in_use(place))?;
            Refusal::NoAuthority.if_so(!governs(held(p, u, group, NONE).first))?;
        }
        Request::Put { object, group } => put_verdict(*p, u, object, group)?,
        Request::Take { object, group } => {
            let held = held(p, u, object, group);
            Refusal::AlreadySo.if_so(!held.direct)?;
            Refusal::NoAuthority.if_so(!(governs(held.first) & governs(held.second)))?;
        }
        Request::Appoint {
            place,
            kind,
            holder,
            a,
            b,
        } => {
            let stands = appointment_at(&p.appointments, place).standing();
            Refusal::AlreadySo.if_so(stands)?;
            let w = Appointment { kind, holder, a, b };
            Refusal::NoAuthority.if_so(!may_appoint(p, u, w))?;
        }
        Request::Dismiss { place } => {
            let w = appointment_at(&p.appointments, place);
            Refusal::NoAuthority.if_so(!may_appoint(p, u, w))?;
        }
        Request::Grant {
            place,
            users,
            targets,
            ..
        } => {
            Refusal::AlreadySo.if_so(rule_at(&p.rules, place).used)?;
            Refusal::NoAuthority.if_so(!held(p, u, users, targets).pair)?;
        }
        Request::Withdraw { place } => {
            let rule = rule_at(&p.rules, place);
            let held = held(p, u, rule.users, rule.targets);
            Refusal::NoAuthority.if_so(!(held.pair | held.second.owned))?;
        }
        Request::Use { target, operation } => return used(*p, u, target, operation),
    }
    Ok(None)
}
