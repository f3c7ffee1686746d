// What the program prints for its input. A buffer that is too small gets as much of the text as it has room for.
ghost use Rattle.frame.specs.Reading.{records_from};
ghost use Rattle.text.specs.Text.{Printed};
ghost use Rattle.list.specs.Report.{report, output};
ghost use Rattle.list.specs.Filling.{ReportInto};
ghost use Rattle.list.specs.Demand.{FoundingDemand3};

use crate::Reported;
use crate::run::answered;
use frame::{Reader, Torn};
use reach::Policy;
use text::{Page, print};

// A line for each record of the input, the first judged on p and each later one on what those before it left, and one for a torn place.
pub fn report_from(p: Policy, input: &[u8], out: &mut [u8]) -> Reported
    ensures { ReportInto p input.now out.old out.new result }
{
    let mut policy = p;
    let mut page = Page::new(out);
    for (index, record) in Reader::new(input, 0).enumerate() {
        let (code, cited) = match record {
            Ok(bytes) => answered(&mut policy, bytes),
            Err(Torn) => (1, 255),
        };
        page.line(index, code, cited);
    }
    Reported {
        written: page.at,
        policy,
    }
}

// The same from the founding on; and of the records that are read demand 3 holds, whole.
pub fn report(input: &[u8], out: &mut [u8]) -> usize
    ensures printed { Printed out.old (report input.now) out.new result }
    ensures founding_demand3 { FoundingDemand3 (records_from input.now 0) }
{
    let told = report_from(Policy::initial(), input, out);
    told.written
}

// The report, for an input of at most 65,536 bytes; for a longer one the line that says so. The program for turns and the one for cards test
// it too, each before a report of its own: one function for the three would take the report, and ask of its callers that it may be called.
pub fn output(input: &[u8], out: &mut [u8]) -> usize
    ensures printed { Printed out.old (output input.now) out.new result }
    ensures founding_demand3 { FoundingDemand3 (records_from input.now 0) }
{
    if 65536 < input.len() {
        return print(out, b"too long\n");
    }
    report(input, out)
}
