use crate::deny::Deny;
use job_tree::Name;

/// Which faults in single copies and passes are not among the lines.
#[derive(Clone, Copy)]
pub struct Untried {
    /// Whether there are more than the first 1,000.
    pub more: bool,
    /// Whether there are some in copies that depend on their parts of the input, which are different.
    pub divided: bool,
}

/// Which faults are tried, which of their lines are printed, and which outcomes are denied.
#[derive(Drop)]
pub struct Options {
    /// The names of the exceptions that faulty steps raise, one at a time.
    pub names: Vec<Name>,
    /// Whether there are also lines for faults in single copies and passes.
    pub each: bool,
    /// Whether only those lines are printed whose outcome differs from that of the job without the fault.
    pub brief: bool,
    /// The outcomes that the job should not have.
    pub deny: Deny,
}
