// The search for a permission that is gained: two nested loops over targets and operations, left by a label with the pair that is found.
ghost use Rattle.std.specs.Prelude.{◌≡◌, ◌⊎◌, get_or};
ghost use Rattle.reach.specs.Words.{bit, SetOf, Meet};
ghost use Rattle.reach.specs.Tests.{Some, Decides};
ghost use Rattle.gains.specs.Searching.{New, FirstNew, Fresh, FirstFresh};

use crate::Permission;
use reach::{Policy, has};

// The targets that are new under some operation.
fn new_targets(had: [u64; 8], got: [u64; 8]) -> u64
    ensures { SetOf result (λ x. Some 8 (λ k. New (get_or had k 0) (get_or got k 0) x)) }
{
    let mut set = 0;
    for k in 0..8 {
        set |= got[k] & !had[k];
    }
    set
}

// The first permission, target by target and operation by operation, that is among the ones and not among the others. Targets that are new
// under no operation are passed over.
pub fn gained(had: [u64; 8], got: [u64; 8]) -> Option<Permission>
    ensures { FirstNew had got result }
{
    let fresh = new_targets(had, got);
    let mut found = None;
    'search: for target in 0..64 {
        if has(fresh, target) {
            for k in 0..8 {
                let i = k as usize;
                if has(got[i] & !had[i], target) {
                    found = Some(Permission {
                        target,
                        operation: k,
                    });
                    break 'search;
                }
            }
        }
    }
    found
}

// What an object is under once x is put where `over` is above, from what it is under before.
fn with_put(before: u64, x: u8, over: u64) -> u64
    ensures { SetOf result (λ t. (bit before t ≡ 1) ⊎ ((bit before x ≡ 1) × (bit over t ≡ 1))) }
{
    if has(before, x) {
        before | over
    } else {
        before
    }
}

// Whether `got` meets `after`, and `had` did not meet `before`.
pub fn fresh(had: u64, got: u64, before: u64, after: u64) -> bool
    ensures { Decides result (Meet got after × (Meet had before → ⊥)) }
{
    (got & after != 0) & (had & before == 0)
}

// The first target and operation such that the groups granted for it meet what the target is under once x is put where `over` is above, and
// those granted before met nothing that it is under before. The two tables are no struct: `gained`, which others call, takes them as they are.
pub fn first_fresh(p: &Policy, had: [u64; 8], got: [u64; 8], x: u8, over: u64) -> Option<Permission>
    ensures { FirstFresh (Fresh p.now.sorts p.now.memberships had got x over) result }
{
    let objects = p.objects();
    let mut found = None;
    'search: for target in 0..64 {
        if objects.is_target(target) {
            let before = objects.above(target);
            let after = with_put(before, x, over);
            for operation in 0..8 {
                let k = operation as usize;
                if fresh(had[k], got[k], before, after) {
                    found = Some(Permission { target, operation });
                    break 'search;
                }
            }
        }
    }
    found
}
