// Questions on the policy of a picture, for C and Rust: each is answered by the policy's own method, and has an entry of its own, since C calls it
// by its name. Where the picture isn't 960 bytes
// or the buffer is too short for the answer, nothing is written, and the result is 0. The founding's picture is here too.
ghost use Rattle.std.specs.Prelude.{◌≡◌, [], ◌∷◌, leb, length};
ghost use Rattle.reach.specs.Tables.{view, sort, sort_number};
ghost use Rattle.reach.specs.Tests.{◌⇒◌∥◌};
ghost use Rattle.reach.specs.Reach.{Under};
ghost use Rattle.reach.specs.Privileges.{Owns, Manages, Administers, Permitted, permitting};
ghost use Rattle.list.specs.Filling.{over};
ghost use Rattle.export.specs.Picture.{policy_of, bytes_of};
ghost use Rattle.export.specs.Asked.{AnswerTold, SetTold, InitialTold, place_byte};

use crate::drawing::put_policy;
use crate::reading::opened;
use reach::{Policy, Sort};

// An answer over the first bytes of out, and how many they are.
fn tell<const N: usize>(answer: [u8; N], out: &mut [u8]) -> usize
    ensures written { out.new ≡ (leb N (length out.old) ⇒ over answer.entry out.old ∥ out.old) }
    ensures count { result ≡ (leb N (length out.old) ⇒ N ∥ 0) }
{
    let Some(place) = out.first_chunk_mut() else {
        return 0;
    };
    *place = answer;
    N
}

// A place of a table as a byte: 255 for none.
fn place_byte(place: Option<u8>) -> u8
    ensures { result ≡ place_byte place }
{
    place.unwrap_or(255)
}

// A sort as a byte: 0 for none.
fn sort_byte(sort: Option<Sort>) -> u8
    ensures { result ≡ sort_number sort }
{
    sort.map_or(0, |s| s as u8)
}

// The founding's picture over the first 960 bytes of the buffer, and the result is 960. A shorter buffer gets nothing, and the result
// is 0.
#[unsafe(no_mangle)]
pub extern "C" fn selkaum_initial(policy: &mut [u8]) -> usize
    ensures { InitialTold policy.old policy.new result }
{
    let Some(picture) = policy.first_chunk_mut() else {
        return 0;
    };
    put_policy(picture, Policy::initial());
    960
}

// The sort of object x as it counts: 0 empty, 1 group, 2 user, 3 target. A number past the table is empty. One byte.
#[unsafe(no_mangle)]
pub extern "C" fn selkaum_sort(policy: &[u8], x: u8, out: &mut [u8]) -> usize
    ensures { AnswerTold policy.now (sort (policy_of policy.now) x ∷ []) out.old out.new result }
{
    let Some(p) = opened(policy) else {
        return 0;
    };
    tell([sort_byte(p.sort(x))], out)
}

// All that x is under, itself too. An empty object, and a number past the table, is under nothing. Eight bytes.
#[unsafe(no_mangle)]
pub extern "C" fn selkaum_above(policy: &[u8], x: u8, out: &mut [u8]) -> usize
    ensures { SetTold policy.now (λ p g. Under (view p) x g) out.old out.new result }
{
    let Some(p) = opened(policy) else {
        return 0;
    };
    tell(p.above(x).to_le_bytes(), out)
}

// All that is under g, itself too. Nothing is under an empty object or a number past the table. Eight bytes.
#[unsafe(no_mangle)]
pub extern "C" fn selkaum_below(policy: &[u8], g: u8, out: &mut [u8]) -> usize
    ensures { SetTold policy.now (λ p x. Under (view p) x g) out.old out.new result }
{
    let Some(p) = opened(policy) else {
        return 0;
    };
    tell(p.under_set(g).to_le_bytes(), out)
}

// All that u owns. Who is no user owns nothing, and holds nothing else. Eight bytes.
#[unsafe(no_mangle)]
pub extern "C" fn selkaum_owned(policy: &[u8], u: u8, out: &mut [u8]) -> usize
    ensures { SetTold policy.now (λ p x. Owns (view p) u x) out.old out.new result }
{
    let Some(p) = opened(policy) else {
        return 0;
    };
    tell(p.owned(u).to_le_bytes(), out)
}

// All that u manages. Eight bytes.
#[unsafe(no_mangle)]
pub extern "C" fn selkaum_managed(policy: &[u8], u: u8, out: &mut [u8]) -> usize
    ensures { SetTold policy.now (λ p x. Manages (view p) u x) out.old out.new result }
{
    let Some(p) = opened(policy) else {
        return 0;
    };
    tell(p.managed(u).to_le_bytes(), out)
}

// All b such that u administers the pair (a, b). Eight bytes.
#[unsafe(no_mangle)]
pub extern "C" fn selkaum_administered(policy: &[u8], u: u8, a: u8, out: &mut [u8]) -> usize
    ensures { SetTold policy.now (λ p b. Administers (view p) u a b) out.old out.new result }
{
    let Some(p) = opened(policy) else {
        return 0;
    };
    tell(p.administered(u, a).to_le_bytes(), out)
}

// The targets on which u is permitted operation k. There is none for an operation above 7. Eight bytes.
#[unsafe(no_mangle)]
pub extern "C" fn selkaum_permitted(policy: &[u8], u: u8, k: u8, out: &mut [u8]) -> usize
    ensures { SetTold policy.now (λ p x. Permitted (view p) u k x) out.old out.new result }
{
    let Some(p) = opened(policy) else {
        return 0;
    };
    tell(p.permitted(u, k).to_le_bytes(), out)
}

// The place of the rule that a USE of operation k on x by u would cite, 255 if he is not permitted it. One byte.
#[unsafe(no_mangle)]
pub extern "C" fn selkaum_permitting(policy: &[u8], u: u8, k: u8, x: u8, out: &mut [u8]) -> usize
    ensures { AnswerTold policy.now (place_byte (permitting (policy_of policy.now) u k x) ∷ [])
        out.old out.new result }
{
    let Some(p) = opened(policy) else {
        return 0;
    };
    tell([place_byte(p.permitting(u, k, x))], out)
}
