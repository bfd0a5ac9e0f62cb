ghost use Rattle.std.specs.Prelude.{◌≡◌, ◌<◌, ◌++◌, OnOk, map};
ghost use Rattle.std.specs.Option.{option_map};
ghost use Rattle.story_index.specs.Seen.{event_in};
ghost use Rattle.race_text.specs.CopyViews.{meeting_held};
ghost use Rattle.race_text.specs.LineViews.{line_held};
ghost use Rattle.trials.specs.Lines.{met_line, copies_lines};

use crate::original::Original;
use basics::{column_of, line_of};
use job_edits::CopiedStart;
use job_story::Event;
use race_text::{Line, Meeting, meeting_of};
use std::alloc::{AllocError, Global};

// Appends a line for each of these starts whose copies meet, given the events of a story in the order of the walk.
pub(crate) fn push_copies(
    alloc: Global,
    lines: &mut Vec<Line>,
    original: &Original<'_>,
    walked: &[&Event],
) -> Result<(), AllocError>
    requires { 0 < original.now.finer_ticks.factor }
    ensures { OnOk result (map line_held lines.new.items ≡ map line_held lines.old.items
        ++ copies_lines original.now.clock original.now.text.now original.now.limit original.now.finer_ticks (map event_in walked.now) original.now.starts.now) }
{
    'starts: for start in original.starts {
        let met = meeting_of(
            alloc,
            original.clock,
            original.finer_ticks.hair,
            start.name,
            walked,
        )?;
        push_met(lines, original, start, met)?;
    }
    Ok(())
}

// Appends the line of a meeting, if there is one by the limit.
fn push_met(
    lines: &mut Vec<Line>,
    original: &Original<'_>,
    start: &CopiedStart,
    met: Option<Meeting>,
) -> Result<(), AllocError>
    requires { 0 < original.now.finer_ticks.factor }
    ensures { OnOk result (map line_held lines.new.items ≡ map line_held lines.old.items
        ++ met_line original.now.text.now original.now.limit original.now.finer_ticks start.now (option_map meeting_held met)) }
{
    let Some(Meeting { one, other, tick }) = met else {
        return Ok(());
    };
    if tick > original.limit {
        return Ok(());
    }
    let name = start.name;
    lines.push(Line::Copies {
        line: line_of(original.text, start.from),
        column: column_of(original.text, start.from),
        name,
        count: start.count,
        one,
        other,
        tick: tick / original.finer_ticks.factor,
    })?;
    Ok(())
}
