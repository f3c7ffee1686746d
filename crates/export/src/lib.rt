// Selkaum for C and Rust: the entry points of a static library. No function asks anything of its caller beyond buffers that are there and
// do not overlap.

#![tactic(auto)]

ghost use Rattle.frame.specs.Reading.{records_from};
ghost use Rattle.text.specs.Text.{Printed};
ghost use Rattle.list.specs.Parts.{handed};
ghost use Rattle.list.specs.Demand.{FoundingDemand3};
ghost use Rattle.list.specs.Report.{report};
ghost use Rattle.export.specs.Picture.{Judged};
ghost use Rattle.export.specs.Counted.{LinesTold};
ghost use Rattle.export.specs.Listed.{Listed};
ghost use Rattle.export.specs.Told.{GainTold};
ghost use Rattle.export.specs.Carded.{CardWritten, CardRead};

mod drawing;
mod questions;
mod queues;
mod reading;

use drawing::put_policy;
use frame::count_steps;
use gains::Permission;
use judge::{cited_of, code_of, judge, own_gain_of};
pub use questions::{
    selkaum_above, selkaum_administered, selkaum_below, selkaum_initial, selkaum_managed,
    selkaum_owned, selkaum_permitted, selkaum_permitting, selkaum_sort,
};
pub use queues::{
    selkaum_queue_join, selkaum_queue_leave, selkaum_queue_start, selkaum_queue_tick,
};
use reading::opened;
use snapshot::{card_code, read_card, write_card};

// The lines for the records of an input of any length into out, as the program prints them for one that is not too long. A buffer that is
// too small gets as much of the text as it has room for. The result counts the bytes written. Of the records demand 3 holds, whole.
#[unsafe(no_mangle)]
pub extern "C" fn selkaum_report(input: &[u8], out: &mut [u8]) -> usize
    ensures printed { Printed out.old (report input.now) out.new result }
    ensures founding_demand3 { FoundingDemand3 (records_from input.now 0) }
{
    list::report(input, out)
}

// How many lines the whole report of an input has: one for each record, and one for a torn place. With 28 bytes for each, a buffer has
// room for the whole report; a report that was cut off has fewer line feeds.
#[unsafe(no_mangle)]
pub extern "C" fn selkaum_lines(input: &[u8]) -> usize
    ensures { LinesTold input.now result }
{
    count_steps(input)
}

// Judges one record on the policy of a picture: the picture after it, the code and the cited rule, 962 bytes, go into the answer, and the
// result is 962. Where the picture isn't 960 bytes or the answer is too short, nothing is written, and the result is 0.
#[unsafe(no_mangle)]
pub extern "C" fn selkaum_judge(policy: &[u8], bytes: &[u8], answer: &mut [u8]) -> usize
    ensures { Judged policy.now bytes.now answer.old answer.new result }
{
    let Some(p) = opened(policy) else {
        return 0;
    };
    let Some((picture, behind)) = answer.split_first_chunk_mut() else {
        return 0;
    };
    if behind.len() < 2 {
        return 0;
    }
    let judged = judge(p, bytes);
    let verdict = judged.verdict;
    let after = judged.policy;
    put_policy(picture, after);
    behind[0] = code_of(verdict);
    behind[1] = cited_of(verdict);
    962
}

// Runs a list from the founding, which is handed in as bytes and the ends of its records: the code and the cited rule of record i go to
// place i of two buffers, the picture of the policy after the list into the third, and the result is 960. Where a buffer is too short,
// nothing is written, and the result is 0. Of the list demand 3 holds, whole.
#[unsafe(no_mangle)]
pub extern "C" fn selkaum_run(
    bytes: &[u8],
    ends: &[usize],
    codes: &mut [u8],
    cited: &mut [u8],
    policy: &mut [u8],
) -> usize
    ensures listed { Listed (handed bytes.now ends.now)
        codes.old cited.old policy.old
        codes.new cited.new policy.new result }
    ensures founding_demand3 { FoundingDemand3 (handed bytes.now ends.now) }
{
    let Some(picture) = policy.first_chunk_mut() else {
        return 0;
    };
    let Some(after) = list::run_list(bytes, ends, codes, cited) else {
        return 0;
    };
    put_policy(picture, after);
    960
}

// Tells why a record is refused for own gain: the first permission that it would give its sender, target by target and operation by
// operation. Target and operation go into the first two bytes of the gain, and the result is 2. Where the record is answered otherwise, or
// would give no permission, where the picture isn't 960 bytes or the gain is too short, nothing is written, and the result is 0.
#[unsafe(no_mangle)]
pub extern "C" fn selkaum_gain(policy: &[u8], bytes: &[u8], gain: &mut [u8]) -> usize
    ensures { GainTold policy.now bytes.now gain.old gain.new result }
{
    let Some(p) = opened(policy) else {
        return 0;
    };
    if gain.len() < 2 {
        return 0;
    }
    match own_gain_of(p, bytes) {
        Some(Permission { target, operation }) => {
            gain[0] = target;
            gain[1] = operation;
            2
        }
        None => 0,
    }
}

// Writes the file of the policy of a picture over the first bytes of the card, and the code into the first byte of the other buffer: 0, 13
// if the policy isn't sound, 14 if the card is too short, with nothing written to the card. The result is the file's length, 0 when refused.
// Where the picture isn't 960 bytes or there is no byte for the code, nothing at all is written, and the result is 0.
#[unsafe(no_mangle)]
pub extern "C" fn selkaum_write_card(policy: &[u8], card: &mut [u8], code: &mut [u8]) -> usize
    ensures { CardWritten policy.now card.old code.old card.new code.new result }
{
    let Some(p) = opened(policy) else {
        return 0;
    };
    if code.len() < 1 {
        return 0;
    }
    let written = write_card(p, card);
    code[0] = card_code(&written);
    written.unwrap_or(0)
}

// Reads a card, where the board has the policy of a picture: the picture of the policy after and the code, 961 bytes, go into the answer, and
// the result is 961. The code is 0, with the policy of the card; or 13 with the one that the board had. Where the picture isn't 960 bytes or
// the answer is too short, nothing is written, and the result is 0. From a policy that was read demand 3 holds for every list.
#[unsafe(no_mangle)]
pub extern "C" fn selkaum_read_card(policy: &[u8], card: &[u8], answer: &mut [u8]) -> usize
    ensures { CardRead policy.now card.now answer.old answer.new result }
{
    let Some(p) = opened(policy) else {
        return 0;
    };
    let Some((picture, behind)) = answer.split_first_chunk_mut() else {
        return 0;
    };
    if behind.len() < 1 {
        return 0;
    }
    let read = read_card(card);
    let code = card_code(&read);
    put_policy(picture, read.unwrap_or(p));
    behind[0] = code;
    961
}
