// The policy that the lines tell of: the script of tools/reach_by_hand.py, in its order, from the founding. Each part is the changes that
// specs/Script.antt lists.
ghost use Rattle.std.specs.Prelude.{◌≡◌};
ghost use Rattle.reach.specs.Successors.{appointed};
ghost use Rattle.reach_report.specs.Script.{changed, objects, circles, appointments, rules, empties, strays, edges, scripted};

use reach::{Appointment, Policy, Post, Sort};

const GROUP: u8 = Sort::Group as u8;

const USER: u8 = Sort::User as u8;

const TARGET: u8 = Sort::Target as u8;

const OWNER: u8 = Post::Owner as u8;

const MANAGER: u8 = Post::Manager as u8;

const ADMINISTRATOR: u8 = Post::Administrator as u8;

// A number that is neither a sort nor a post.
const UNKNOWN: u8 = 7;

// The place i filled with an appointment, given by its parts.
fn appoint(p: Policy, i: u8, kind: u8, holder: u8, a: u8, b: u8) -> Policy
    ensures { result ≡ appointed p i (record { kind = kind; holder = holder; a = a; b = b }) }
{
    let w = Appointment { kind, holder, a, b };
    p.appointed(i, w)
}

// Groups, users and targets, each in one group.
fn with_objects(p: Policy) -> Policy
    ensures { result ≡ changed objects p }
{
    let q = p
        .made(2, USER, 0)
        .made(3, GROUP, 0)
        .made(4, GROUP, 3)
        .made(5, GROUP, 4);
    q.made(6, TARGET, 5)
        .made(7, TARGET, 3)
        .made(8, USER, 4)
        .made(9, GROUP, 0)
}

// A circle of three groups, a group in itself, and a target and a user in two groups.
fn with_circles(p: Policy) -> Policy
    ensures { result ≡ changed circles p }
{
    p.put(3, 5).put(9, 9).put(6, 9).put(8, 9)
}

// Appointments of each kind, one that a target holds and one of an unknown kind.
fn with_appointments(p: Policy) -> Policy
    ensures { result ≡ changed appointments p }
{
    let p1 = appoint(p, 1, MANAGER, 2, 3, 0);
    let p2 = appoint(p1, 2, ADMINISTRATOR, 8, 9, 4);
    let p3 = appoint(p2, 3, OWNER, 8, 9, 0);
    let p4 = appoint(p3, 4, ADMINISTRATOR, 8, 0, 9);
    let p5 = appoint(p4, 5, MANAGER, 6, 0, 0);
    appoint(p5, 6, UNKNOWN, 2, 0, 0)
}

// Rules of groups, one whose targets are an empty object and one of a user and a target.
fn with_rules(p: Policy) -> Policy
    ensures { result ≡ changed rules p }
{
    let q = p
        .granted(0, 4, 5, 6)
        .granted(1, 9, 9, 255)
        .granted(2, 0, 63, 255);
    q.granted(3, 5, 3, 4).granted(40, 8, 6, 1)
}

// An object of an unknown sort, and what is taken away again.
fn with_empties(p: Policy) -> Policy
    ensures { result ≡ changed empties p }
{
    let q = p
        .taken(8, 4)
        .made(10, UNKNOWN, 0)
        .made(11, GROUP, 0)
        .put(10, 11);
    q.dismissed(4).withdrawn(3)
}

// Memberships that do not count or are cleared, an appointment and a rule whose halves make nothing with another's, and an orphan.
fn with_strays(p: Policy) -> Policy
    ensures { result ≡ changed strays p }
{
    let q = p.put(7, 6).put(2, 12).put(12, 3).made(12, GROUP, 9);
    let s = appoint(q, 7, ADMINISTRATOR, 8, 2, 9);
    s.granted(41, 2, 7, 6)
        .granted(5, 2, 6, 32)
        .withdrawn(5)
        .taken(11, 0)
}

// The first unknown sort, a rule at place 0, an appointment at the last place, a user made anew, and a target that nobody owns.
fn with_edges(p: Policy) -> Policy
    ensures { result ≡ changed edges p }
{
    let q = p.made(10, 4, 0).granted(0, 9, 9, 2);
    let s = appoint(q, 31, MANAGER, 2, 9, 3);
    s.made(1, USER, 12).put(12, 0).taken(7, 3)
}

// The policy after the whole script.
pub fn policy() -> Policy
    ensures { result ≡ scripted }
{
    let p = with_circles(with_objects(Policy::initial()));
    with_edges(with_strays(with_empties(with_rules(with_appointments(p)))))
}
