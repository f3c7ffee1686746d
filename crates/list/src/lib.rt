// A list of requests: its run, what holds of every list (demand 3), and what the program prints.

#![tactic(auto)]

mod program;
mod run;

pub use program::{output, report, report_from};
use reach::Policy;
pub use run::{run_from, run_list};

// What a report leaves: how many bytes of its text were written, and the policy after its last record.
#[derive(Clone, Copy)]
pub struct Reported {
    pub written: usize,
    pub policy: Policy,
}
