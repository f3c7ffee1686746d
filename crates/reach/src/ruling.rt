// What is read of the rules alone.
ghost use Rattle.std.specs.Prelude.{◌≡◌, ◌<◌, get_or};
ghost use Rattle.reach.specs.Words.{SetOf};
ghost use Rattle.reach.specs.Tests.{Some, lowest};
ghost use Rattle.reach.specs.Tables.{no_rule};
ghost use Rattle.reach.specs.Asking.{covered_by, HasT};

use crate::AccessRule;
use crate::sets::{has, just};

// Whether the rule is in use, has the operation, and its U and T are in the sets.
fn covered(rule: AccessRule, k: u8, users: u64, targets: u64) -> bool
    ensures { result ≡ covered_by rule k users targets }
{
    if !rule.used {
        return false;
    }
    has(u64::from(rule.operations), k) & has(users, rule.users) & has(targets, rule.targets)
}

// The lowest place of a rule that is in use, has the operation, and whose U and T are in the sets; or none.
pub fn covering(rules: &[AccessRule; 64], k: u8, users: u64, targets: u64) -> Option<u8>
    ensures { result ≡ lowest 64 (λ i. covered_by (get_or rules.now i no_rule) k users targets) }
{
    for (i, rule) in rules.iter().enumerate() {
        if covered(*rule, k, users, targets) {
            return Some(i as u8);
        }
    }
    None
}

// The T of this rule, if it is in use, has the operation, and its U is in the set.
fn t_of(rule: AccessRule, k: u8, users: u64) -> u64
    ensures { SetOf result (λ t. (t < 64) × HasT rule k users t) }
{
    if !rule.used {
        return 0;
    }
    if !(has(u64::from(rule.operations), k) & has(users, rule.users)) {
        return 0;
    }
    just(rule.targets)
}

// The Ts of the rules in use that have the operation, and whose U is in the set.
pub fn granted_over(rules: &[AccessRule; 64], k: u8, users: u64) -> u64
    ensures { SetOf result (λ t. Some 64 (λ i. (t < 64) × HasT (get_or rules.now i no_rule) k users t)) }
{
    let mut set = 0;
    for rule in rules {
        set |= t_of(*rule, k, users);
    }
    set
}
