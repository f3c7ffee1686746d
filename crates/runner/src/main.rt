// The program: reads requests from standard input, and prints what the board makes of them. No contract can say what standard input gives
// and standard output takes: what is proved is what is printed for what was read, at any reader and writer whose bytes are known.

#![tactic(auto)]

ghost use Rattle.std.specs.Prelude.{◌≡◌, ◌≤◌, ◌<◌, length, take, OnOk, IfSome};
ghost use Rattle.std.specs.Io.KnownBytes.{Appends};
ghost use Rattle.std.proofs.Common.{lit<};
ghost use Rattle.frame.specs.Reading.{records_from};
ghost use Rattle.list.specs.Report.{output, too_long};
ghost use Rattle.list.specs.Demand.{FoundingDemand3};
ghost use Rattle.list.proofs.Room.{output_longer};

use intake::Answer;
use std::io;
use std::io::{Read, Write};

// What the board says to a list of requests.
struct Board;

impl Answer<212992> for Board {
    ghost output = { output };

    // The text for what was read, all of it, and how long it is: there is room for whatever is to be printed. Of the records that were read
    // demand 3 holds, whole. More than 65,536 bytes are too long: what is judged is never the first part of a longer input.
    fn answer(input: &[u8], text: &mut [u8; 212992]) -> usize
        ensures fits { result ≤ 212992 }
        ensures value { result ≡ length (output input.now) }
        ensures text_after { take result text.new ≡ output input.now }
        ensures founding_demand3 { FoundingDemand3 (records_from input.now 0) }
        ensures input_value { 65536 < length input.now → output input.now ≡ too_long }
    {
        list::output(input, text)
    }

    ghost room = { lit< tt };

    ghost longer = { output_longer };
}

// Reads the requests, and prints what is said to all of them: of an input that is too long, only that it is. An error prints nothing, or is
// that of the printing.
fn run<R: Read, W: Write>(reader: &mut R, writer: &mut W) -> io::Result<()>
    ensures { OnOk result (IfSome (R.remaining reader.old) (λ requests.
        Appends (W.contents writer.old) (W.contents writer.new) (output requests))) }
{
    intake::run::<212992, Board, R, W>(reader, writer)
}

fn main(rt: HostRuntime) -> io::Result<()> {
    run(&mut rt.stdin(), &mut rt.stdout())
}
