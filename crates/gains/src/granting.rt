// What the rules grant, as a table: for each operation a set of target groups.
ghost use Rattle.std.specs.Prelude.{◌≡◌, ◌<◌, get_or};
ghost use Rattle.reach.specs.Words.{bit, SetOf, TableOf};
ghost use Rattle.reach.specs.Tests.{Some, Decides};
ghost use Rattle.reach.specs.Tables.{no_rule};
ghost use Rattle.reach.specs.Asking.{HasT};
ghost use Rattle.gains.specs.Searching.{Joined, GrantsOver, Covers};

use reach::{AccessRule, has, just, only_if};
use std::array;

// The eight sets with one added to each that is among those named.
pub fn spread(sets: [u64; 8], which: u64, added: u64) -> [u64; 8]
    ensures { Joined 8 sets (λ i x. (bit which i ≡ 1) × (bit added x ≡ 1)) result }
{
    array::from_fn(|i| sets[i] | only_if(has(which, i as u8), added))
}

// Whether this rule is in use, and its U is among the users.
pub fn covers(rule: AccessRule, users: u64) -> bool
    ensures { Decides result (Covers rule users) }
{
    rule.used && has(users, rule.users)
}

// The sets with the T of this rule, if it is in use and its U is among the users.
fn granted_by(sets: [u64; 8], rule: AccessRule, users: u64) -> [u64; 8]
    ensures { Joined 8 sets (λ k t. (t < 64) × HasT rule k users t) result }
{
    if !covers(rule, users) {
        return sets;
    }
    spread(sets, rule.operations as u64, just(rule.targets))
}

// For each operation the Ts of the rules in use that have it, and whose U is among the users.
pub fn granted(rules: &[AccessRule; 64], users: u64) -> [u64; 8]
    ensures { TableOf 8 result (λ k t. Some 64 (λ i. (t < 64) × HasT (get_or rules.now i no_rule) k users t)) }
{
    let mut sets = [0; 8];
    for rule in rules {
        // The borrow checker covers no call whose array is laid right into `sets`, and of a fold a proof learns nothing.
        let more = granted_by(sets, *rule, users);
        sets = more;
    }
    sets
}

// The operations of this rule, if it is in use, its U is among the users and its T among the targets.
fn operations_of(rule: AccessRule, users: u64, targets: u64) -> u64
    ensures { SetOf result (GrantsOver rule users targets) }
{
    only_if(
        covers(rule, users) & has(targets, rule.targets),
        rule.operations as u64,
    )
}

// The operations of all rules in use whose U is among the users and whose T is among the targets.
pub fn operations_over(rules: &[AccessRule; 64], users: u64, targets: u64) -> u64
    ensures { SetOf result (λ k. Some 64 (λ i. GrantsOver (get_or rules.now i no_rule) users targets k)) }
{
    let mut set = 0;
    for rule in rules {
        set |= operations_of(*rule, users, targets);
    }
    set
}
