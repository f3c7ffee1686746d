// Check 10 of APPOINT and GRANT.
ghost use Rattle.std.specs.Prelude.{◌≡◌};
ghost use Rattle.rules.specs.declared.Request.TheVariants.{Grant};
ghost use Rattle.rules.specs.Allowing.{appointing};
ghost use Rattle.rules.specs.Refusals.{own_gain};

use crate::granting::{granted, operations_over, spread};
use crate::putting::lacks_first;
use crate::searching::first_fresh;
use reach::{AccessRule, Appointment, Policy, Post, has, just, posts_of};

// APPOINT gives its sender something exactly if he appoints himself to what he lacks: nothing that he is appointed over in that way is above
// its A, or no one appointment of his covers its pair.
pub fn appoint_gains(p: Policy, u: u8, place: u8, w: Appointment) -> bool
    ensures { result ≡ own_gain p u (appointing place w) }
{
    if !((w.holder == u) & (place < 32)) {
        return false;
    }
    let objects = p.objects();
    if !(objects.is_user(u) & objects.in_use(w.a)) {
        return false;
    }
    let above = objects.above(w.a);
    let posts = posts_of(&p.appointments, u);
    match Post::of(w.kind) {
        Some(Post::Owner) => posts.owner & above == 0,
        Some(Post::Manager) => posts.manager & above == 0,
        Some(Post::Administrator) => lacks_first(&p, u, w.b, above),
        None => false,
    }
}

// GRANT can give permissions alone: its sender gains exactly if he is among its users and the search finds one. There is nothing to find if
// the rules that cover him have its operations over what its T is under.
pub fn grant_gains(p: Policy, u: u8, place: u8, rule: AccessRule) -> bool
    ensures { result ≡ own_gain p u (Grant place rule.users rule.targets rule.operations) }
{
    let objects = p.objects();
    if !((place < 64) & objects.is_user(u)) {
        return false;
    }
    let over = objects.above(u);
    if !has(over, rule.users) {
        return false;
    }
    let above = objects.above(rule.targets);
    if (rule.operations as u64) & !operations_over(&p.rules, over, above) == 0 {
        return false;
    }
    let had = granted(&p.rules, over);
    let got = spread(had, rule.operations as u64, just(rule.targets));
    first_fresh(&p, had, got, 0, 0).is_some()
}
