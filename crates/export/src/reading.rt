// The policy of a picture, and the little-endian numbers in it.
ghost use Rattle.std.specs.Prelude.{◌≡◌, ◌≢◌, ◌+◌, ◌≤◌, length, MatchOption};
ghost use Rattle.export.specs.Picture.{number_from, appointment_from, rule_from, policy_of};

use reach::{AccessRule, Appointment, Policy};
use std::array;

// The number of the eight bytes from a place on.
fn word_from(picture: &[u8; 960], at: usize) -> u64
    requires { at + 8 ≤ 960 }
    ensures { result ≡ number_from 8 picture.now at }
{
    u64::from_le_bytes(array::from_fn(|k| picture[at + k]))
}

// The appointment whose bytes begin at a place.
fn appointment_from(picture: &[u8; 960], at: usize) -> Appointment
    requires { at + 4 ≤ 960 }
    ensures { result ≡ appointment_from picture.now at }
{
    Appointment {
        kind: picture[at],
        holder: picture[at + 1],
        a: picture[at + 2],
        b: picture[at + 3],
    }
}

// The access rule whose bytes begin at a place.
fn rule_from(picture: &[u8; 960], at: usize) -> AccessRule
    requires { at + 4 ≤ 960 }
    ensures { result ≡ rule_from picture.now at }
{
    AccessRule {
        used: picture[at] == 1,
        users: picture[at + 1],
        targets: picture[at + 2],
        operations: picture[at + 3],
    }
}

// The policy of a picture.
fn policy_of(picture: &[u8; 960]) -> Policy
    ensures { result ≡ policy_of picture.now }
{
    Policy {
        sorts: array::from_fn(|x| picture[x]),
        memberships: array::from_fn(|x| word_from(picture, 64 + 8 * x)),
        appointments: array::from_fn(|i| appointment_from(picture, 576 + 4 * i)),
        rules: array::from_fn(|i| rule_from(picture, 704 + 4 * i)),
    }
}

// The policy of a picture that has its 960 bytes.
pub fn opened(picture: &[u8]) -> Option<Policy>
    ensures { MatchOption result (length picture.now ≢ 960)
        (λ p. (length picture.now ≡ 960) × (p ≡ policy_of picture.now)) }
{
    picture.as_array().map(policy_of)
}
