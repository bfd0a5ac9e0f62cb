ghost use Rattle.std.specs.Prelude.{◌≡◌, ◌≤◌, length, IfOk};
ghost use Rattle.job_meaning.specs.declared.limits.TheConstants.{MAX_INPUT};
ghost use Rattle.job_edits.specs.Changes.{changed_text};
ghost use Rattle.job_edits.specs.FinerTicks.{shifted_changes};
ghost use Rattle.race_text.specs.LineViews.{found_held};
ghost use Rattle.trials.specs.TextRuns.{IsComparison};
ghost use Rattle.trials.specs.Views.{IsMovedOf, text_run_held};

use crate::comparing::found_in_text;
use crate::original::Original;
use basics::{column_of, line_of};
use job_edits::{Shift, changed_text, shifted_changes};
use job_reader::JobFault;
use race_text::{ComparedRun, Found, Line};
use std::alloc::{AllocError, Global};
use std::thread::Threads;
use workers::Work;

/// The places of a text that are moved by a hair, and the run of the text in finer ticks to compare with.
#[derive(Clone, Copy)]
pub(crate) struct Moves<'a> {
    /// The text, and its input.
    pub original: Original<'a>,
    /// The run of the text in finer ticks, or the refusal of that text.
    pub before: Result<&'a ComparedRun<'a>, JobFault>,
}

impl Work for Moves<'_> {
    type Item = Shift;

    type Answer = Line;

    ghost use Rattle.trials.specs.Views.{HasRoom, IsMovedOf};

    ghost may = { HasRoom };

    ghost answers = { IsMovedOf };

    fn answer<R: Threads + Sync>(
        &self,
        rt: &R,
        alloc: Global,
        shift: &Shift,
    ) -> Result<Line, AllocError> {
        line_with(rt, alloc, self, shift)
    }
}

// Returns the line of a place that is moved by a hair.
fn line_with<R: Threads + Sync>(
    rt: &R,
    alloc: Global,
    moves: &Moves<'_>,
    shift: &Shift,
) -> Result<Line, AllocError>
    requires { length moves.now.original.input.now ≤ MAX_INPUT }
    ensures { IfOk result (IsMovedOf moves.now shift.now) }
{
    let found = found_with(rt, alloc, moves, shift)?;
    let from = shift.site.from;
    let moment = shift.site.moment;
    let line = line_of(moves.original.text, from);
    let column = column_of(moves.original.text, from);
    Ok(Line::Moved {
        line,
        column,
        moment,
        hair: shift.hair,
        found,
    })
}

// Returns what is shown if a place is moved by a hair.
fn found_with<R: Threads + Sync>(
    rt: &R,
    alloc: Global,
    moves: &Moves<'_>,
    shift: &Shift,
) -> Result<Found, AllocError>
    requires { length moves.now.original.input.now ≤ MAX_INPUT }
    ensures { IfOk result (λ found. IsComparison moves.now.original.scope.now (changed_text moves.now.original.text.now
        (shifted_changes moves.now.original.clock moves.now.original.finer_ticks moves.now.original.scope.now shift.now moves.now.original.sites.now)) moves.now.original.input.now moves.now.original.limit (text_run_held moves.now.before) (found_held found)) }
{
    let original = &moves.original;
    let changes = shifted_changes(
        alloc,
        original.clock,
        original.finer_ticks,
        *original.scope,
        shift,
        original.sites,
    )?;
    let text = changed_text(alloc, original.text, changes.as_slice())?;
    found_in_text(rt, alloc, original, moves.before, text.as_slice())
}
