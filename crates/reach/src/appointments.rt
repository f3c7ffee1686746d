// What is read of the appointments alone.
ghost use Rattle.std.specs.Prelude.{◌≡◌, ◌<◌, get_or, Bool, true};
ghost use Rattle.reach.specs.Words.{SetOf};
ghost use Rattle.reach.specs.Tests.{Some, Decides};
ghost use Rattle.reach.specs.declared.Appointment.{Appointment};
ghost use Rattle.reach.specs.Tables.{no_appointment};
ghost use Rattle.reach.specs.Privileges.{owner, manager};
ghost use Rattle.reach.specs.Asking.{HasA, AppointedOver, PostsIn, CoversPair, HasB, HasFirst, OwnersA};

use crate::sets::{Members, has, just, mark, only_if};
use crate::{Appointment, Objects, Post, Posts, Sides};

// The places whose appointment passes the test. There is no branch on a place, since the processor can't guess which of them do. It stays a
// function of its own: in its callers, which go through a set of 64 bits, the compiler would work the marks in words of 64, in twice the time.
#[inline(never)]
fn places<F: Fn(Appointment) -> bool>(appointments: &[Appointment; 32], test: F) -> u32
    requires { F.IsAlwaysCallable test }
    ensures { (passes : Appointment → Bool) → ((w : Appointment) (t : Bool) → F.post test w t → t ≡ passes w) →
        SetOf result (λ i. (i < 32) × (passes (get_or appointments.now i no_appointment) ≡ true)) }
{
    let mut set = 0;
    for (i, w) in appointments.iter().enumerate() {
        set |= mark(test(*w), i);
    }
    set
}

// The A of this appointment, as an owner's or as a manager's, for its holder.
fn posts_by(w: Appointment) -> Posts
    ensures { SetOf result.owner (λ a. (a < 64) × HasA w owner w.holder a) ×
        SetOf result.manager (λ a. (a < 64) × HasA w manager w.holder a) }
{
    let a = just(w.a);
    Posts {
        owner: only_if(w.kind == Post::Owner as u8, a),
        manager: only_if(w.kind == Post::Manager as u8, a),
    }
}

// What u is appointed over, as an owner and as a manager: of the places that are his, the lowest first.
pub fn posts_of(appointments: &[Appointment; 32], u: u8) -> Posts
    ensures { PostsIn appointments.now u result }
{
    let mut owner = 0;
    let mut manager = 0;
    for i in Members(u64::from(places(appointments, |w| w.holder == u))) {
        let posts = posts_by(appointments[i]);
        owner |= posts.owner;
        manager |= posts.manager;
    }
    Posts { owner, manager }
}

// Whether this appointment, if it is an administrator's, has its A in the one set and its B in the other, for its holder.
fn pair_by(w: Appointment, first: u64, second: u64) -> bool
    ensures { Decides result (CoversPair w w.holder first second) }
{
    (w.kind == Post::Administrator as u8) & has(first, w.a) & has(second, w.b)
}

// The same for u: another's appointment does not.
fn covers(w: Appointment, u: u8, first: u64, second: u64) -> bool
    ensures { Decides result (CoversPair w u first second) }
{
    w.holder == u && pair_by(w, first, second)
}

// Whether one of u's appointments covers the pair of sets so.
pub fn covers_pair(appointments: &[Appointment; 32], u: u8, first: u64, second: u64) -> bool
    ensures { Decides result (Some 32 (λ i. CoversPair (get_or appointments.now i no_appointment) u first second)) }
{
    appointments.iter().any(|w| covers(*w, u, first, second))
}

// What u's appointments give him: what he is appointed over, and whether an administrator's one covers a pair.
#[derive(Clone, Copy)]
pub struct Given {
    pub posts: Posts,
    pub pair: bool,
}

// The posts of u, and whether one of his appointments covers the pair of sets: his places are gone through once.
pub fn given_to(appointments: &[Appointment; 32], u: u8, first: u64, second: u64) -> Given
    ensures { PostsIn appointments.now u result.posts ×
        Decides result.pair (Some 32 (λ i. CoversPair (get_or appointments.now i no_appointment) u first second)) }
{
    let mut owner = 0;
    let mut manager = 0;
    let mut pair = false;
    for i in Members(u64::from(places(appointments, |w| w.holder == u))) {
        let w = appointments[i];
        let posts = posts_by(w);
        owner |= posts.owner;
        manager |= posts.manager;
        pair |= pair_by(w, first, second);
    }
    Given {
        posts: Posts { owner, manager },
        pair,
    }
}

// The sides of this appointment whose other side is in the set, if it is an administrator's, for its holder.
fn sides_by(w: Appointment, set: u64) -> Sides
    ensures { SetOf result.first (λ a. (a < 64) × HasFirst w w.holder set a) ×
        SetOf result.second (λ b. (b < 64) × HasB w w.holder set b) }
{
    let administrator = w.kind == Post::Administrator as u8;
    Sides {
        first: only_if(administrator & has(set, w.b), just(w.a)),
        second: only_if(administrator & has(set, w.a), just(w.b)),
    }
}

// The sides of u's administrator's appointments whose other side is in the set: of the places that are his, the lowest first.
pub fn sides_of(appointments: &[Appointment; 32], u: u8, set: u64) -> Sides
    ensures { SetOf result.first (λ a. Some 32 (λ i. (a < 64) × HasFirst (get_or appointments.now i no_appointment) u set a)) ×
        SetOf result.second (λ b. Some 32 (λ i. (b < 64) × HasB (get_or appointments.now i no_appointment) u set b)) }
{
    let mut first = 0;
    let mut second = 0;
    for i in Members(u64::from(places(appointments, |w| w.holder == u))) {
        let sides = sides_by(appointments[i], set);
        first |= sides.first;
        second |= sides.second;
    }
    Sides { first, second }
}

// The As of all owners' appointments whose holder is a user: of the places that have an owner's, the lowest first.
pub fn owners_from(objects: Objects, appointments: &[Appointment; 32]) -> u64
    ensures { SetOf result (λ a. Some 32 (λ i. (a < 64) × OwnersA objects.entry.sorts.now (get_or appointments.now i no_appointment) a)) }
{
    let mut set = 0;
    for i in Members(u64::from(places(appointments, |w| w.kind == Post::Owner as u8))) {
        let w = appointments[i];
        set |= only_if(objects.is_user(w.holder), just(w.a));
    }
    set
}
