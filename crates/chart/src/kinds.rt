ghost use Rattle.std.specs.Prelude.{◌≡◌};
ghost use Rattle.std.specs.Option.{option_copied};
ghost use Rattle.exceptions.specs.Exceptions as tree;
ghost use Rattle.job_story.specs.Held.{what_of};
ghost use Rattle.chart.specs.Bars.{is_left};
ghost use Rattle.chart.specs.HeldBars.{is_label};

use exceptions::Label;
use job_story::{Happening, What};

// Returns the label of the scope or nursery that is left with an event, if one is.
pub(crate) fn left_label(what: &What) -> Option<&Label>
    ensures { (l : tree.Label) → is_label l result ≡ is_left l (what_of what.now) }
{
    match what {
        What::Happens(Happening::Leaves { label, .. }) => Some(label),
        _ => None,
    }
}
