// Checks 8 to 11 of a PUT, by what its object and its group are under: who may, what it gives its sender, and what it hands over. That the
// sets are what the two are under stays a premise: a ghost field keeps a fact of one proof, and an object may be under another by many chains.
ghost use Rattle.std.specs.Prelude.{◌≡◌, ◌⊎◌, ℕ};
ghost use Rattle.reach.specs.declared.Policy.{Policy};
ghost use Rattle.reach.specs.Words.{Meet};
ghost use Rattle.reach.specs.Tests.{Decides, ◌⇒◌∥◌};
ghost use Rattle.reach.specs.Tables.{view};
ghost use Rattle.reach.specs.Reach.{InUse, User};
ghost use Rattle.reach.specs.Privileges.{Administers};
ghost use Rattle.rules.specs.declared.Request.TheVariants.{Put};
ghost use Rattle.rules.specs.declared.Refusal.TheVariants.{AlreadySo, NoAuthority};
ghost use Rattle.rules.specs.Refusals.{already_so, no_authority};
ghost use Rattle.gains.specs.Giving.{given_by};
ghost use Rattle.gains.specs.Lacking.{Grows, LacksPair, Above};
ghost use Rattle.gains.specs.Lending.{Placed};

use crate::handing::hands_over;
use crate::opening::{put_permission, rules_open};
use crate::searching::fresh;
use reach::{Placing, Policy, Posts, covers_pair, has, only_if, sides_of};
use rules::Refusal;

// Whether b is in use, and u does not administer the pair of x and b, where `object` is all that x is under.
pub fn lacks_first(p: &Policy, u: u8, b: u8, object: u64) -> bool
    ensures { (x : ℕ) → User (view p.now) u → Above p.now x object →
        Decides result (InUse (view p.now) b × (Administers (view p.now) u x b → ⊥)) }
{
    let over = p.objects().above(b);
    over != 0 && !covers_pair(&p.appointments, u, object, over)
}

// Whether u comes to administer a pair by one of his appointments: its A is opened, and its B is in use and not under the B of any that has
// its A above the object; or the same with the sides exchanged.
fn pairs_come(p: &Policy, u: u8, asked: Placing) -> bool
    ensures { (x g : ℕ) → Placed p.now u x g asked → Decides result (LacksPair (view p.now) u x g) }
{
    let object = asked.first;
    let group = asked.second;
    let opened = sides_of(&p.appointments, u, group & !object);
    if opened.first | opened.second == 0 {
        return false;
    }
    let held = sides_of(&p.appointments, u, object);
    let objects = p.objects();
    objects.not_under(opened.second, held.second) != 0
        || objects.not_under(opened.first, held.first) != 0
}

// Whether what he is appointed over, as an owner or as a manager, has something above the group and nothing above the object.
fn posts_grow(asked: Placing) -> bool
    ensures { Decides result (Grows asked.posts.owner asked.first asked.second ⊎ Grows asked.posts.manager asked.first asked.second) }
{
    let posts = asked.posts;
    let object = asked.first;
    let group = asked.second;
    fresh(posts.owner, posts.owner, object, group)
        || fresh(posts.manager, posts.manager, object, group)
}

// Whether what he is appointed over, as an owner or as a manager, has something in the set.
fn meets(posts: Posts, set: u64) -> bool
    ensures { Decides result (Meet posts.owner set ⊎ Meet posts.manager set) }
{
    (posts.owner & set != 0) | (posts.manager & set != 0)
}

// Checks 10 and 11 of a PUT by a user of an object in use. Into what is no group, and where the object is under the group already, it gives
// nothing. Else its sender gains exactly if he holds the group and not the object in one of the two ways, or a pair comes, or a permission is
// found; and it hands over exactly if he does not own the object, and some user holds the group and not the object. The policy goes by value:
// behind a reference nothing says how long its tables are, which the laws of a successor ask.
fn put_gives(p: Policy, u: u8, x: u8, g: u8, asked: Placing) -> Result<(), Refusal>
    ensures { Placed p u x g asked → result ≡ given_by p u (Put x g) }
{
    let posts = asked.posts;
    let object = asked.first;
    let group = asked.second;
    let objects = p.objects();
    if !objects.is_group(g) {
        return Ok(());
    }
    if has(object, g) {
        return Ok(());
    }
    if posts_grow(asked) {
        return Err(Refusal::OwnGain);
    }
    if pairs_come(&p, u, asked) {
        return Err(Refusal::OwnGain);
    }
    let over = objects.above(u);
    let more = only_if(has(over, x), group & !over);
    if rules_open(&p.rules, over, more, group & !object) {
        if put_permission(&p, over, x, group).is_some() {
            return Err(Refusal::OwnGain);
        }
    }
    if posts.owner & object != 0 {
        return Ok(());
    }
    Refusal::HandOver.if_so(hands_over(&p, object, group))
}

// Checks 8 to 11 of a PUT, in their order. They are asked together, since all of them but the first go by what its object and its group are
// under, and each of the two is climbed from once.
pub fn put_verdict(p: Policy, u: u8, x: u8, g: u8) -> Result<(), Refusal>
    ensures { result ≡ (already_so p (Put x g) ⇒ Err AlreadySo ∥ no_authority p u (Put x g) ⇒ Err NoAuthority ∥ given_by p u (Put x g)) }
{
    let asked = p.placing(u, x, g);
    Refusal::AlreadySo.if_so(asked.direct)?;
    let posts = asked.posts;
    let object = asked.first;
    let group = asked.second;
    Refusal::NoAuthority.if_so(!(meets(posts, object) & meets(posts, group)))?;
    put_gives(p, u, x, g, asked)
}
