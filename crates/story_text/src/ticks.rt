ghost use Rattle.std.specs.Prelude.{◌≡◌, ◌+◌, IfSome, is_some};
ghost use Rattle.job_story.specs.Tell.{is_from};
ghost use Rattle.story_text.specs.Known.{cancelled_from_in};

use crate::known::Known;
use exceptions::Label;

// Returns whether `from` is this tick. `None` is never.
pub(crate) fn is_tick(from: Option<u64>, tick: u64) -> bool
    ensures { result ≡ is_from from tick }
{
    match from {
        None => false,
        Some(from) => from == tick,
    }
}

// Returns the moment after this one, if the scope or nursery is cancelled, or the event set, from exactly that moment on.
pub(crate) fn next_from(known: &Known<'_, '_>, label: &Label, moment: u64) -> Option<u64>
    ensures value { IfSome result (λ from. from ≡ moment + 1) }
    ensures some { is_some result ≡ is_from (cancelled_from_in known.now label.now) (moment + 1) }
{
    let Some(from) = known.from(label) else {
        return None;
    };
    if moment < from && from - moment == 1 {
        Some(from)
    } else {
        None
    }
}
