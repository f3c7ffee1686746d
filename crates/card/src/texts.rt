// What the program makes of the bytes that it read. Every byte of a card and of what is printed is fixed by these contracts.
ghost use Rattle.std.specs.Prelude.{◌≡◌, ◌<◌, ℕ, length, None, Result};
ghost use Rattle.frame.specs.Reading.{records_from};
ghost use Rattle.text.specs.Text.{Printed};
ghost use Rattle.list.specs.Runs.{run};
ghost use Rattle.list.specs.Report.{too_long};
ghost use Rattle.snapshot.specs.Answers.{code_of, length_of};
ghost use Rattle.card.specs.Program.{Shows, saved_line, code_line, output_from, Saves, Loads};

use crate::{Saved, Told};
use list::report_from;
use reach::Policy;
use snapshot::{CardError, card_code, read_card, write_card};
use text::{Page, print};

// The policy that the records of the input leave from the policy p. What they print has no room.
fn left_by(p: Policy, input: &[u8]) -> Policy
    ensures { result ≡ run p (records_from input.now 0) }
{
    report_from(p, input, &mut []).policy
}

// The line for a card: the writer's code, and the length of the file, 0 when refused.
fn put_saved(line: &mut [u8], written: Result<usize, CardError>) -> usize
    ensures { Printed line.old (saved_line (code_of written) (length_of written)) line.new result }
{
    let mut page = Page::new(line);
    page.small(card_code(&written));
    page.byte(b' ');
    page.number(written.unwrap_or(0));
    page.byte(b'\n');
    page.at
}

// Saves what the requests of the input leave from the founding: the card, and the line to print once it is in its place. Of an input of more
// than 65,536 bytes nothing is saved; of one with a torn place, what the records before it leave.
pub fn save_list(input: &[u8], card: &mut [u8; 25376], line: &mut [u8; 16]) -> Saved
    ensures saves { Saves input.now card.old card.new line.new result }
    ensures fits_value { 65536 < length input.now → result.card ≡ None }
{
    if input.len() > 65536 {
        return Saved {
            card: None,
            printed: print(line, b"too long\n"),
        };
    }
    let founding = Policy::initial();
    let left = left_by(founding, input);
    let written = write_card(left, card);
    Saved {
        card: written.ok(),
        printed: put_saved(line, written),
    }
}

// The code of a card that was read, on a line.
fn put_code(head: &mut [u8], code: u8) -> usize
    ensures { Printed head.old (code_line code) head.new result }
{
    let mut page = Page::new(head);
    page.small(code);
    page.byte(b'\n');
    page.at
}

// A line for each record of the input, judged from the policy p on; for a longer input the line that says so.
fn output_from(p: Policy, input: &[u8], out: &mut [u8]) -> usize
    ensures { Printed out.old (output_from p input.now) out.new result }
{
    if 65536 < input.len() {
        return print(out, b"too long\n");
    }
    report_from(p, input, out).written
}

// Reads the card, and judges the requests of the input from its policy on, or from the founding if it is damaged: the first line, and the
// text behind it. From that policy demand 3 holds, whole. An input that is too long says so.
pub fn load_and_judge(
    card: &[u8],
    input: &[u8],
    head: &mut [u8; 4],
    text: &mut [u8; 212992],
) -> Told
    ensures loads { Loads card.now input.now head.new text.new result }
    ensures shows { 65536 < length input.now → Shows text.new result.text too_long }
{
    let founding = Policy::initial();
    let read = read_card(card);
    let said = put_code(head, card_code(&read));
    let policy = read.unwrap_or(founding);
    Told {
        head: said,
        text: output_from(policy, input, text),
    }
}
