// What a request would give a user to use.
ghost use Rattle.std.specs.Prelude.{◌≡◌};
ghost use Rattle.reach.specs.Words.{bit, TableOf};
ghost use Rattle.reach.specs.Tables.{view};
ghost use Rattle.reach.specs.Privileges.{Permitted};
ghost use Rattle.gains.specs.Giving.{FirstPermission};
ghost use Rattle.judge.specs.Telling.{OwnGainOf};

use crate::decide;
use crate::doing::after;
use gains::{Permission, gained};
use reach::Policy;
use rules::{Refusal, Request};
use std::array;

// For each operation those of the objects on which u is permitted it.
fn permissions(p: Policy, objects: u64, u: u8) -> [u64; 8]
    ensures { TableOf 8 result (λ k x. (bit objects x ≡ 1) × Permitted (view p) u k x) }
{
    array::from_fn(|k| objects & p.permitted(u, k as u8))
}

// The first permission, target by target and operation by operation, that a request would give a user, were it done: one that he has after
// it and lacks before, on an object in use before. For every policy, user and request, whatever the checks say of it.
pub fn permission_gained(p: Policy, u: u8, q: Request) -> Option<Permission>
    ensures { FirstPermission p u q result }
{
    let m = p.masks();
    let had = permissions(p, m.objects, u);
    let got = permissions(after(p, q), m.objects, u);
    gained(had, got)
}

// The first permission that a record would give its sender, if the board refuses it for own gain, and nothing if it answers otherwise. The
// verdict is what the board decides; no policy after is worked out for it.
pub fn own_gain_of(p: Policy, bytes: &[u8]) -> Option<Permission>
    ensures { OwnGainOf p bytes.now result }
{
    let decision = decide(&p, bytes);
    if decision.verdict != Err(Refusal::OwnGain) {
        return None;
    }
    permission_gained(p, decision.sender, decision.request)
}
