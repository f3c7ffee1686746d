// What the rules open by a PUT: whether some rule tells that a permission may come, and the search for one.
ghost use Rattle.std.specs.Prelude.{◌≡◌, ℕ, get_or, is_some};
ghost use Rattle.reach.specs.Tests.{Some, Decides};
ghost use Rattle.reach.specs.Tables.{no_rule, view};
ghost use Rattle.reach.specs.Reach.{User};
ghost use Rattle.gains.specs.Lacking.{LacksPermit, Above};
ghost use Rattle.gains.specs.Searching.{Opens};

use crate::Permission;
use crate::granting::granted;
use crate::searching::first_fresh;
use reach::{AccessRule, Policy, has};

// Whether this rule is in use, and its U is in `more`, or in `users` with its T in `opened`.
fn rule_opens(rule: AccessRule, users: u64, more: u64, opened: u64) -> bool
    ensures { Decides result (Opens rule users more opened) }
{
    rule.used && (has(more, rule.users) | (has(users, rule.users) & has(opened, rule.targets)))
}

// Whether some rule does. Where none does no permission comes, and there is no need to search.
pub fn rules_open(rules: &[AccessRule; 64], users: u64, more: u64, opened: u64) -> bool
    ensures { Decides result (Some 64 (λ i. Opens (get_or rules.now i no_rule) users more opened)) }
{
    rules
        .iter()
        .any(|rule| rule_opens(*rule, users, more, opened))
}

// The permission that the search finds: one that u, who is under `over`, has once x is in g, and lacks before. Unless he is under x himself,
// and not under all that g is under, the rules that cover him stay the same.
pub fn put_permission(p: &Policy, over: u64, x: u8, group: u64) -> Option<Permission>
    ensures { (u g : ℕ) → User (view p.now) u → Above p.now u over → Above p.now g group →
        Decides (is_some result) (LacksPermit (view p.now) u x g) }
{
    let had = granted(&p.rules, over);
    if !has(over, x) {
        return first_fresh(p, had, had, x, group);
    }
    if over | group == over {
        return first_fresh(p, had, had, x, group);
    }
    let got = granted(&p.rules, over | group);
    first_fresh(p, had, got, x, group)
}
