ghost use Rattle.std.specs.Prelude.{◌≡◌};
ghost use Rattle.job_story.specs.Held.{what_of};
ghost use Rattle.chart.specs.Marks.{is_cross, is_dot, is_plus};

use job_story::{Happening, What};

/// Returns whether the event is that a task is cancelled, which is drawn as a cross on its bar.
pub fn is_cross(what: &What) -> bool
    ensures { result ≡ is_cross (what_of what.now) }
{
    matches!(what, What::Happens(Happening::IsCancelled { .. }))
}

/// Returns whether the event is that a task raises an exception, by `raise`, by a `need` that finds no line, or in the queue of a
/// limiter or channel, which is drawn as a dot on its bar (in text, as `!`).
pub fn is_dot(what: &What) -> bool
    ensures { result ≡ is_dot (what_of what.now) }
{
    matches!(
        what,
        What::Happens(
            Happening::Misses { .. }
                | Happening::Raises { .. }
                | Happening::FindsClosed { .. }
                | Happening::Deadlocks { .. }
        )
    )
}

// Returns whether the event is that a task sets an event of the job, or closes a channel. In text a `+` is drawn on its bar.
pub(crate) fn is_plus(what: &What) -> bool
    ensures { result ≡ is_plus (what_of what.now) }
{
    matches!(
        what,
        What::Happens(Happening::Sets { .. } | Happening::ClosesChannel { .. })
    )
}
