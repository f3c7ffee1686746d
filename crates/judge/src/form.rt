// Checks 1 to 7: of the bytes, of the sender, and of what the request names.
ghost use Rattle.std.specs.Prelude.{◌≡◌, not, eqb, ltb};
ghost use Rattle.reach.specs.Tests.{◌⇒◌∥◌};
ghost use Rattle.rules.specs.Refusals.{torn, unknown, misfit, stranger, one_to_three, off_the_sheet, absent, wrong_sort};

use crate::records::length_of;
use frame::{kind_field, length_field};
use reach::{Policy, Post, appointment_at, rule_at};
use rules::Request;

// Check 1.
#[tactic(auto, unfolding(rules::specs::Refusals::torn))]
pub fn torn(b: &[u8]) -> bool
    ensures { result ≡ torn b.now }
{
    let n = length_field(b);
    (b.len() < 4) | (b.len() != n)
}

// Check 2.
#[tactic(auto, unfolding(rules::specs::Refusals::unknown))]
pub fn unknown(b: &[u8]) -> bool
    ensures { result ≡ unknown b.now }
{
    !(1..=8).contains(&kind_field(b))
}

// Check 3.
#[tactic(auto, unfolding(rules::specs::Refusals::misfit))]
pub fn misfit(b: &[u8]) -> bool
    ensures { result ≡ misfit b.now }
{
    let n = length_of(kind_field(b));
    b.len() != n
}

// Check 4.
pub fn stranger(p: &Policy, u: u8) -> bool
    ensures { result ≡ stranger p.now u }
{
    !p.objects().is_user(u)
}

// Whether a sort, or the kind of an appointment, is one of the three.
fn one_to_three(n: u8) -> bool
    ensures { result ≡ one_to_three n }
{
    (1..=3).contains(&n)
}

// Whether B is off: past the table for an administrator, and not 0 for the other kinds.
fn b_off(kind: u8, b: u8) -> bool
    ensures { result ≡ (eqb kind 3 ⇒ ltb 63 b ∥ not (eqb b 0)) }
{
    if kind == Post::Administrator as u8 {
        63 < b
    } else {
        b != 0
    }
}

// Check 5.
#[tactic(auto, unfolding(rules::specs::Refusals::off_the_sheet))]
pub fn off_the_sheet(q: Request) -> bool
    ensures { result ≡ off_the_sheet q }
{
    match q {
        Request::Make { place, sort, group } => (63 < place) | !one_to_three(sort) | (63 < group),
        Request::Put { object, group } => (63 < object) | (63 < group),
        Request::Take { object, group } => (63 < object) | (63 < group),
        Request::Appoint {
            place,
            kind,
            holder,
            a,
            b,
        } => (31 < place) | !one_to_three(kind) | (63 < holder) | (63 < a) | b_off(kind, b),
        Request::Dismiss { place } => 31 < place,
        Request::Grant {
            place,
            users,
            targets,
            operations,
        } => (63 < place) | (63 < users) | (63 < targets) | (operations == 0),
        Request::Withdraw { place } => 63 < place,
        Request::Use { target, operation } => (63 < target) | (7 < operation),
    }
}

// Check 6.
#[tactic(auto, unfolding(rules::specs::Refusals::absent), using(reach::proofs::Sorts::in_use_is, reach::proofs::AsRead::appointment_is, reach::proofs::AsRead::rule_is))]
pub fn absent(p: &Policy, q: Request) -> bool
    ensures { result ≡ absent p.now q }
{
    let objects = p.objects();
    match q {
        Request::Make { group, .. } => !objects.in_use(group),
        Request::Put { object, group } => !objects.in_use(object) | !objects.in_use(group),
        Request::Take { object, group } => !objects.in_use(object) | !objects.in_use(group),
        Request::Appoint {
            kind,
            holder,
            a,
            b,
            ..
        } => {
            !objects.in_use(holder)
                | !objects.in_use(a)
                | ((kind == Post::Administrator as u8) & !objects.in_use(b))
        }
        Request::Dismiss { place } => !appointment_at(&p.appointments, place).standing(),
        Request::Grant { users, targets, .. } => !objects.in_use(users) | !objects.in_use(targets),
        Request::Withdraw { place } => !rule_at(&p.rules, place).used,
        Request::Use { target, .. } => !objects.in_use(target),
    }
}

// Check 7.
#[tactic(auto, unfolding(rules::specs::Refusals::wrong_sort), using(reach::proofs::Sorts::sort_is))]
pub fn wrong_sort(p: &Policy, q: Request) -> bool
    ensures { result ≡ wrong_sort p.now q }
{
    let objects = p.objects();
    match q {
        Request::Make { group, .. } => !objects.is_group(group),
        Request::Put { group, .. } => !objects.is_group(group),
        Request::Take { group, .. } => !objects.is_group(group),
        Request::Appoint {
            kind,
            holder,
            a,
            b,
            ..
        } => {
            !objects.is_group(a)
                | ((kind == Post::Administrator as u8) & !objects.is_group(b))
                | !objects.is_user(holder)
        }
        Request::Dismiss { .. } => false,
        Request::Grant { users, targets, .. } => {
            !objects.is_group(users) | !objects.is_group(targets)
        }
        Request::Withdraw { .. } => false,
        Request::Use { target, .. } => !objects.is_target(target),
    }
}
