// Reach and privileges: the policy (document 01's sheet), who is under which group, who holds what, and the policy after each
// accepted change. Nothing here knows a byte of a request or a refusal's number.

#![tactic(auto)]

mod appointments;
mod climbing;
mod orphans;
mod questions;
mod rounds;
mod ruling;
mod sets;
mod successors;
mod surveying;
mod tables;

pub use appointments::{covers_pair, posts_of, sides_of};
pub use sets::{Members, has, just, only_if};
pub use successors::{dismiss, take_out};
pub use tables::{appointment_at, rule_at};

// The sorts of objects, by document 01's numbers: its members are users here, and its gear targets. A policy stores the number, as any byte
// is legal there; one that is none of these is an empty object.
#[derive(Clone, Copy, Debug, PartialEq, Eq)]
pub enum Sort {
    Group = 1,
    User = 2,
    Target = 3,
}

// The posts of an appointment, by document 01's numbers of kinds. A kind that is none of these is an empty place.
#[derive(Clone, Copy, Debug, PartialEq, Eq)]
pub enum Post {
    Owner = 1,
    Manager = 2,
    Administrator = 3,
}

// Document 01's warrant: the number of a post, its holder, and the groups A and B. Any value is legal.
#[derive(Clone, Copy, Default)]
pub struct Appointment {
    pub kind: u8,
    pub holder: u8,
    pub a: u8,
    pub b: u8,
}

// Document 01's rule. An empty place has used false, whatever else it holds.
#[derive(Clone, Copy, Default)]
pub struct AccessRule {
    pub used: bool,
    pub users: u8,
    pub targets: u8,
    pub operations: u8,
}

// Document 01's sheet. Row x of memberships is the set of the groups that x is stored as directly in: bit g is group g.
// Any value is legal.
#[derive(Clone, Copy)]
pub struct Policy {
    pub sorts: [u8; 64],
    pub memberships: [u64; 64],
    pub appointments: [Appointment; 32],
    pub rules: [AccessRule; 64],
}

// The two tables that reach depends on, lent: the sorts, and the memberships.
#[derive(Clone, Copy)]
pub struct Objects<'a> {
    pub sorts: &'a [u8; 64],
    pub memberships: &'a [u64; 64],
}

// The objects in use, and those of each sort, as sets.
#[derive(Clone, Copy, Default)]
pub struct Masks {
    pub objects: u64,
    pub groups: u64,
    pub users: u64,
    pub targets: u64,
}

// What a user is appointed over: the As of his owner's appointments, and of his manager's, as sets.
#[derive(Clone, Copy, Default)]
pub struct Posts {
    pub owner: u64,
    pub manager: u64,
}

// Of administrator's appointments, the As whose B is in some set, and the Bs whose A is in it, as sets.
#[derive(Clone, Copy, Default)]
pub struct Sides {
    pub first: u64,
    pub second: u64,
}

// Whether a user owns an object, and whether he manages it.
#[derive(Clone, Copy)]
pub struct Over {
    pub owned: bool,
    pub managed: bool,
}

// What a user holds over two objects, and over the pair of them, and whether the one is directly in the other.
#[derive(Clone, Copy)]
pub struct Held {
    pub first: Over,
    pub second: Over,
    pub pair: bool,
    pub direct: bool,
}

// What a user is appointed over, all that each of two objects is under, and whether the one is directly in the other.
#[derive(Clone, Copy)]
pub struct Placing {
    pub posts: Posts,
    pub first: u64,
    pub second: u64,
    pub direct: bool,
}
