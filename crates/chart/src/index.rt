ghost use Rattle.std.specs.Prelude.{◌≡◌, map, refl};
ghost use Rattle.std.specs.Coded.{code_by};
ghost use Rattle.std.proofs.Props.{props};
ghost use Rattle.exceptions.specs.Exceptions as tree;
ghost use Rattle.exceptions.specs.Exceptions.{Excs, cancelled, no_parts, part};
ghost use Rattle.exceptions.specs.ExcCode.{excs_code};
ghost use Rattle.story_index.specs.Seen.{event_in};
ghost use Rattle.chart.specs.Bars.{of_task, left_in};
ghost use Rattle.chart.specs.HeldBars.{events_at, event_at};

use exceptions::Label;
use indexmap::IndexMap;
use job_story::Event;

/// An index over the events of a story in the order of the walk: the events of each task, and the event with which each scope and
/// nursery was left. Each look-up takes constant time.
#[derive(Drop)]
pub struct StoryIndex<'s, 'e> {
    pub(crate) walked: &'s [&'e Event],
    pub(crate) tasks: IndexMap<&'e Label, Vec<&'e Event>>,
    pub(crate) left: IndexMap<&'e Label, &'e Event>,
    // Each fact has at most one proof, since events have an encoding: an exception in one is stored as the one part of a group.
    ghost own: { (l : tree.Label) → events_at tasks l ≡ of_task l (map event_in walked.now) } by { Prim.hlevel (props, code_by Excs excs_code (λ exc. part exc no_parts) (elim [ no_parts ↦ cancelled | part exc parts ↦ exc ]) (λ exc. refl)) },
    ghost leaving: { (l : tree.Label) → event_at left l ≡ left_in l (map event_in walked.now) } by { Prim.hlevel (props, code_by Excs excs_code (λ exc. part exc no_parts) (elim [ no_parts ↦ cancelled | part exc parts ↦ exc ]) (λ exc. refl)) },
}
