//! The law about the exit status. The function does nothing: its contract is the law.

ghost use Rattle.std.specs.Prelude.{◌≡◌, List};
ghost use Rattle.feed_tests.specs.declared.tally.Outcome.{Outcome};
ghost use Rattle.feed_tests.specs.Tallies.{all_counted, no_tests, status_of, tally_status};

/// A law, which does nothing at run time. The exit status of the counts of some tests is that of what these tests came to: 1
/// exactly if one of them failed, 4 exactly if none failed and one could not be tested, and otherwise 0.
pub fn law_status()
    ensures { (outcomes : List Outcome) → tally_status (all_counted outcomes no_tests) ≡ status_of outcomes }
{}
