// Checks 10 and 11: what a request would give its sender, and hand over to others; of a PUT with checks 8 and 9. What one holds is closed
// downward, so that a PUT is judged by what its two objects are under; only a permission is searched for, target by target.

#![tactic(auto)]

mod granting;
mod handing;
mod opening;
mod own;
mod putting;
mod searching;

pub use own::{appoint_gains, grant_gains};
pub use putting::put_verdict;
pub use searching::gained;

// A permission, by its target and its operation.
#[derive(Clone, Copy, Debug, PartialEq, Eq)]
pub struct Permission {
    pub target: u8,
    pub operation: u8,
}
