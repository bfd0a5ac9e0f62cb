ghost use Rattle.std.specs.Prelude.{◌≤◌, length, IfOk};
ghost use Rattle.job_meaning.specs.declared.limits.TheConstants.{MAX_INPUT};
ghost use Rattle.expect_text.specs.Views.{expected_of};
ghost use Rattle.commands.specs.Mets.{IsMet, answer_of};

use crate::denying::{no_faults, no_races};
use crate::matching::{no_line, some_line};
use crate::met::Met;
use expect_text::Expectation;
use job_answers::Question;
use std::alloc::{AllocError, Global};
use std::thread::Threads;

/// Returns whether an expectation of a job text over an input is met. Patterns are searched for in the lines of `report` and
/// `story`, which are the outputs that `output_of` returns. Races and faults are those that `races` and `faults` compute with
/// these settings, where a step that fails raises `Fault`. The caller must ensure that the input has at most 16,777,216 bytes
/// (`MAX_INPUT`). Returns `AllocError` if memory runs out.
pub fn meets<R: Threads + Sync>(
    rt: &R,
    alloc: Global,
    question: &Question<'_>,
    expectation: Expectation<'_>,
    report: &[u8],
    story: &[u8],
) -> Result<Met, AllocError>
    requires { length question.now.input.now ≤ MAX_INPUT }
    ensures { IfOk result (λ met. IsMet question.now.text.now question.now.input.now question.now.settings.limit
        (expected_of expectation.entry) report.now story.now (answer_of met)) }
{
    match expectation {
        Expectation::Present(pattern) => some_line(alloc, pattern, report, story),
        Expectation::Absent(pattern) => no_line(alloc, pattern, report, story),
        Expectation::NoRaces => no_races(rt, alloc, question),
        Expectation::NoFaults(kinds) => no_faults(rt, alloc, question, kinds),
    }
}
