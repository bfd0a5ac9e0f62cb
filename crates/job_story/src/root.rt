ghost use Rattle.std.specs.Prelude.{◌≡◌, ◌≤◌, length, map, IfOk};
ghost use Rattle.job_meaning.specs.declared.limits.TheConstants.{MAX_INPUT};
ghost use Rattle.job_meaning.specs.GrantTable.{AreGrantsOf, grants_made};
ghost use Rattle.job_meaning.specs.Meaning.{root_label};
ghost use Rattle.job_story.specs.Events.{events_of};
ghost use Rattle.job_story.specs.CancelledFrom.{table_in};
ghost use Rattle.job_story.specs.Held.{event_of};
ghost use Rattle.job_story.specs.Tell.{story_by};

use crate::here::Here;
use crate::progress::Progress;
use crate::stack::Stack;
use crate::walk::tell_child;
use crate::{CancelledFrom, Event};
use exceptions::Label;
use input_lines::Part;
use job_meaning::{Clock, GrantTable};
use job_reader::Job;
use std::alloc::{AllocError, Global};

/// Returns the events of a job's run over an input, where `cancelled_from` maps each scope and nursery to the moment from which
/// it is cancelled, and each event to the moment from which it is set, and `grants` has what limiters and channels granted. What
/// is called a tick of an event is its moment.
///
/// The events are in the order of the walk and not sorted by moment: all events of a started task, from its start to its end, are
/// at the point where the task was started. The input has at most `MAX_INPUT` bytes, and the parts that channels granted are of
/// it. The only error is a failed allocation.
pub fn tell<'a>(
    alloc: Global,
    job: &'a Job,
    input: &'a [u8],
    cancelled_from: &CancelledFrom,
    grants: &GrantTable<'a>,
) -> Result<Vec<Event>, AllocError>
    requires small { length input.now ≤ MAX_INPUT }
    requires lent { AreGrantsOf input.now grants.now }
    ensures { IfOk result (λ events. map event_of events.items ≡ events_of (root_label job.now.name)
        (story_by (record { cancelled_from = table_in cancelled_from.now; granted = grants_made grants.now }) job.now input.now)) }
{
    let outside = Label::new(alloc, job.name());
    let nothing = Stack::Empty;
    let here = Here {
        alloc,
        clock: Clock::of(job.text_format()),
        cancelled_from,
        grants,
        part: Part::whole(input),
        task: &outside,
        place: &outside,
        scopes: &nothing,
        events: &nothing,
        in_cleanup: false,
    };
    let root = Label::new(alloc, job.name());
    let mut progress = Progress {
        events: Vec::new(alloc),
        cancelled: Vec::new(alloc),
    };
    tell_child(root, here.part, job.steps(), here, 0, 0, &mut progress)?;
    Ok(progress.events)
}
