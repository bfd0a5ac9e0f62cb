ghost use Rattle.std.specs.Prelude.{◌≡◌};
ghost use Rattle.std.specs.Option.{is_some};
ghost use Rattle.feed_tests.specs.Tallies.{any_counted, counted, no_tests, tally_status};

use std::alloc::{AllocError, Global};

/// What a test came to.
#[derive(Clone, Copy, Debug, PartialEq, Eq)]
pub enum Outcome {
    /// A file is as it was kept, or as expected.
    Passed,
    /// An output was kept instead of another, or as the first.
    Accepted,
    /// A run differs from a file, or is not as expected.
    Failed,
    /// It could not be tested.
    Fault,
}

/// The number of tests of each kind.
#[derive(Clone, Copy)]
pub(crate) struct Tally {
    passed: usize,
    accepted: usize,
    failed: usize,
    faults: usize,
}

impl Tally {
    // Returns a tally with no tests.
    pub(crate) fn new() -> Tally
        ensures { result ≡ no_tests }
    {
        Tally {
            passed: 0,
            accepted: 0,
            failed: 0,
            faults: 0,
        }
    }

    // Counts a test.
    pub(crate) fn count(&mut self, outcome: Outcome)
        ensures { self.new ≡ counted outcome self.old }
    {
        match outcome {
            Outcome::Passed => self.passed = self.passed.saturating_add(1),
            Outcome::Accepted => self.accepted = self.accepted.saturating_add(1),
            Outcome::Failed => self.failed = self.failed.saturating_add(1),
            Outcome::Fault => self.faults = self.faults.saturating_add(1),
        }
    }

    // Counts a test, if there is one, and returns whether there is.
    pub(crate) fn count_any(&mut self, outcome: Option<Outcome>) -> bool
        ensures counts { self.new ≡ any_counted outcome self.old }
        ensures any { result ≡ is_some outcome }
    {
        match outcome {
            Some(outcome) => {
                self.count(outcome);
                true
            }
            None => false,
        }
    }

    // Returns the line with the counts: those that passed and failed, and the others if there are any.
    pub(crate) fn line(&self, alloc: Global) -> Result<String, AllocError> {
        let mut line = format!(in alloc; "{} passed", self.passed)?;
        if self.accepted > 0 {
            line.push_str(format!(in alloc; ", {} accepted", self.accepted)?.as_str())?;
        }
        line.push_str(format!(in alloc; ", {} failed", self.failed)?.as_str())?;
        if self.faults > 0 {
            line.push_str(format!(in alloc; ", {} not tested", self.faults)?.as_str())?;
        }
        line.push_str("\n")?;
        Ok(line)
    }

    // Returns the exit status: 1 if something failed, 4 if nothing failed and something could not be tested, and otherwise 0.
    pub(crate) fn status(&self) -> u8
        ensures { result ≡ tally_status self.now }
    {
        if self.failed > 0 {
            1
        } else if self.faults > 0 {
            4
        } else {
            0
        }
    }
}
