ghost use Rattle.std.specs.Prelude.{◌≡◌, IfOk};
ghost use Rattle.std.specs.Option.{option_map};
ghost use Rattle.outcomes.specs.Views.{job_outcome_held};
ghost use Rattle.outcomes.specs.Groups.{group_of_one, shares, joined_group, ends_of, with_ends};
ghost use Rattle.outcomes.specs.SweepViews.{ends_held, group_held};

use crate::JobOutcome;
use crate::outcome_text::{push_head, push_notes};
use std::alloc::{AllocError, Global};

// The earliest and the latest of some ends, in ticks.
#[derive(Clone, Copy)]
pub(crate) struct Ends {
    pub least: u64,
    pub greatest: u64,
}

// Values from a first to a last one, their common text, and when the job ends.
#[derive(Drop)]
pub(crate) struct Group {
    pub first: u64,
    pub last: u64,
    pub head: Vec<u8>,
    pub notes: Vec<u8>,
    pub ends: Option<Ends>,
}

impl Group {
    // Makes a group of a single value.
    pub(crate) fn of_one(
        alloc: Global,
        limit: u64,
        value: u64,
        job_outcome: &JobOutcome,
    ) -> Result<Group, AllocError>
        ensures { IfOk result (λ group. group_held group ≡ group_of_one limit value (job_outcome_held job_outcome.now)) }
    {
        let mut head = Vec::new(alloc);
        push_head(&mut head, limit, job_outcome)?;
        let mut notes = Vec::new(alloc);
        push_notes(&mut notes, job_outcome)?;
        Ok(Group {
            first: value,
            last: value,
            head,
            notes,
            ends: ends_of(job_outcome),
        })
    }

    // Returns whether both groups have the same text.
    pub(crate) fn shares(&self, other: &Group) -> bool
        ensures { result ≡ shares (group_held self.now) (group_held other.now) }
    {
        self.head.as_slice() == other.head.as_slice()
            && self.notes.as_slice() == other.notes.as_slice()
    }

    // Adds a group whose values come directly before those of this one.
    pub(crate) fn join(&mut self, earlier: &Group)
        ensures { group_held self.new ≡ joined_group (group_held earlier.now) (group_held self.old) }
    {
        self.first = earlier.first;
        self.ends = with_ends(earlier.ends, self.ends);
    }
}

// Returns when a job ends, or `None` if it does not end.
fn ends_of(job_outcome: &JobOutcome) -> Option<Ends>
    ensures { option_map ends_held result ≡ ends_of (job_outcome_held job_outcome.now) }
{
    match job_outcome {
        JobOutcome::Refused(_) | JobOutcome::Stuck { .. } => None,
        JobOutcome::Ended { end, .. } => Some(Ends {
            least: *end,
            greatest: *end,
        }),
    }
}

// Returns the earliest and the latest of all ends of two groups.
fn with_ends(earlier: Option<Ends>, later: Option<Ends>) -> Option<Ends>
    ensures { option_map ends_held result ≡ with_ends (option_map ends_held earlier) (option_map ends_held later) }
{
    let Some(a) = earlier else {
        return later;
    };
    let Some(b) = later else {
        return earlier;
    };
    Some(Ends {
        least: a.least.min(b.least),
        greatest: a.greatest.max(b.greatest),
    })
}
