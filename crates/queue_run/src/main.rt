// The program: turns at one radio. It reads records from standard input, document 01's and four kinds of its own (32
// START, 33 JOIN, 34 LEAVE, 35 TICK), and prints what each does. No contract can say what standard input gives and
// standard output takes: what is proved is what is printed for what was read, at any reader and writer whose bytes are
// known.

#![tactic(auto)]

ghost use Rattle.std.specs.Prelude.{◌≡◌, ◌≤◌, ◌<◌, length, take, OnOk, IfSome};
ghost use Rattle.std.specs.Io.KnownBytes.{Appends};
ghost use Rattle.std.proofs.Common.{lit<};
ghost use Rattle.text.specs.Text.{Printed};
ghost use Rattle.queue_run.specs.Program.{founding};
ghost use Rattle.queue_run.specs.Output.{lines_from, too_long, output, output_longer};

mod club;
mod lines;

use club::{founded, taken_in};
use frame::{Reader, Torn};
use intake::Answer;
use lines::put_told;
use std::io;
use std::io::{Read, Write};
use text::{Page, print};

// A line for each record of the input, and one for a torn place. A buffer that is too small gets as much of the text as
// it has room for.
fn report(input: &[u8], out: &mut [u8]) -> usize
    ensures { Printed out.old (lines_from founding 0 input.now 0) out.new result }
{
    let mut club = founded();
    let mut page = Page::new(out);
    for (index, record) in Reader::new(input, 0).enumerate() {
        match record {
            Ok(bytes) => {
                let told = taken_in(&club, bytes);
                put_told(&mut page, index, told);
                club = told.club;
            }
            Err(Torn) => {
                page.line(index, 1, 255);
            }
        }
    }
    page.at
}

// The same for an input of at most 65,536 bytes; for a longer one the line that says so.
fn output(input: &[u8], out: &mut [u8]) -> usize
    ensures { Printed out.old (output input.now) out.new result }
{
    if 65536 < input.len() {
        return print(out, b"too long\n");
    }
    report(input, out)
}

// What is told of the events at the radio.
struct Turns;

impl Answer<655360> for Turns {
    ghost output = { output };

    // The text for what was read, all of it, and how long it is: there is room for whatever is to be printed. More than
    // 65,536 bytes are too long: what is told is never the first part of a longer input.
    fn answer(input: &[u8], text: &mut [u8; 655360]) -> usize
        ensures fits { result ≤ 655360 }
        ensures value { result ≡ length (output input.now) }
        ensures text_after { take result text.new ≡ output input.now }
        ensures input_value { 65536 < length input.now → output input.now ≡ too_long }
    {
        output(input, text)
    }

    ghost room = { lit< tt };

    ghost longer = { output_longer };
}

// Reads the records, and prints what is told of all of them: of an input that is too long, only that it is. An error
// prints nothing, or is that of the printing.
fn run<R: Read, W: Write>(reader: &mut R, writer: &mut W) -> io::Result<()>
    ensures { OnOk result (IfSome (R.remaining reader.old) (λ records.
        Appends (W.contents writer.old) (W.contents writer.new) (output records))) }
{
    intake::run::<655360, Turns, R, W>(reader, writer)
}

fn main(rt: HostRuntime) -> io::Result<()> {
    run(&mut rt.stdin(), &mut rt.stdout())
}
