ghost use Rattle.std.specs.Prelude.{◌≡◌, is_some, true};
ghost use Rattle.job_tree.specs.Blocks.{cleaned_of, handled_of, step_of, steps_of};
ghost use Rattle.trio_text.specs.Needs.{
  any_use,
  ask_use,
  cleaned_uses,
  deadline_use,
  handled_uses,
  no_uses,
  object_use,
  plain_uses,
  shows,
  uses_in,
  uses_of,
};

use job_tree::{Ask, Body, Deadline, Handler, ObjectKind, Step};

// The helpers that the program uses.
#[derive(Clone, Copy)]
pub(crate) struct Uses {
    pub handling: bool,
    pub acquire: bool,
    pub channel: bool,
    pub pace: bool,
    pub find: bool,
    pub head: bool,
    pub longest: bool,
    pub need: bool,
    pub over: bool,
    pub start: bool,
}

impl Uses {
    // Returns whether a step reports lines.
    pub(crate) fn shows(&self) -> bool
        ensures { result ≡ shows self.now }
    {
        self.find || self.head || self.longest || self.need
    }
}

// No helpers.
fn no_uses() -> Uses
    ensures { result ≡ no_uses }
{
    Uses {
        handling: false,
        acquire: false,
        channel: false,
        pace: false,
        find: false,
        head: false,
        longest: false,
        need: false,
        over: false,
        start: false,
    }
}

// Returns the helpers that are among the first or the second.
#[tactic(auto, unfolding(crate::specs::Needs::any_use))]
fn any_use(a: Uses, b: Uses) -> Uses
    ensures { result ≡ any_use a b }
{
    Uses {
        handling: a.handling | b.handling,
        acquire: a.acquire | b.acquire,
        channel: a.channel | b.channel,
        pace: a.pace | b.pace,
        find: a.find | b.find,
        head: a.head | b.head,
        longest: a.longest | b.longest,
        need: a.need | b.need,
        over: a.over | b.over,
        start: a.start | b.start,
    }
}

// Returns what the steps of a block need.
#[cycle(uses)]
pub(crate) fn uses_of(steps: &[Step]) -> Uses
    ensures { result ≡ uses_of (steps_of steps.now) }
{
    let mut uses = no_uses();
    let mut rest = steps;
    'steps: while let Some((first, others)) = rest.split_first() {
        let more = uses_in(first);
        uses = any_use(uses, more);
        rest = others;
    }
    uses
}

#[cycle(uses)]
fn uses_in(step: &Step) -> Uses
    ensures { result ≡ uses_in (step_of step.now) }
{
    match step {
        Step::Scope { deadline, body, .. } => {
            any_use(deadline_use(*deadline), uses_of(body.as_slice()))
        }
        Step::Nursery { deadline, body, .. } => {
            any_use(deadline_use(*deadline), uses_of(body.as_slice()))
        }
        Step::Event { body, .. } => uses_of(body.as_slice()),
        Step::Object { kind, body, .. } => any_use(object_use(*kind), uses_of(body.as_slice())),
        Step::Ask { ask, body, .. } => any_use(ask_use(*ask), uses_of(body.as_slice())),
        Step::Start { over, body, .. } => {
            any_use(over_use(over.is_some()), uses_of(body.as_slice()))
        }
        Step::Repeat { over, body, .. } => any_use(over_use(*over), uses_of(body.as_slice())),
        Step::Try {
            body,
            handler,
            cleanup,
        } => any_use(
            any_use(uses_of(body.as_slice()), handled_uses(handler)),
            cleaned_uses(cleanup),
        ),
        _ => plain_uses(step),
    }
}

#[cycle(uses)]
fn handled_uses(handler: &Option<Handler>) -> Uses
    ensures { result ≡ handled_uses (handled_of handler.now) }
{
    let Some(handler) = handler else {
        return no_uses();
    };
    any_use(handling_use(), uses_of(handler.body.as_slice()))
}

#[cycle(uses)]
fn cleaned_uses(cleanup: &Option<Body>) -> Uses
    ensures { result ≡ cleaned_uses (cleaned_of cleanup.now) }
{
    let Some(cleanup) = cleanup else {
        return no_uses();
    };
    uses_of(cleanup.as_slice())
}

// Returns what a step without a block needs.
fn plain_uses(step: &Step) -> Uses
    ensures { result ≡ plain_uses (step_of step.now) }
{
    let mut uses = no_uses();
    match step {
        Step::Pace(_) => uses.pace = true,
        Step::Find(_) => uses.find = true,
        Step::Head(_) => uses.head = true,
        Step::Longest => uses.longest = true,
        Step::Need { .. } => uses.need = true,
        _ => {}
    }
    uses
}

// Returns what a deadline needs: one at a tick of the job needs the time when the job starts.
fn deadline_use(deadline: Deadline) -> Uses
    ensures { result ≡ deadline_use deadline }
{
    let mut uses = no_uses();
    match deadline {
        Deadline::Never => {}
        Deadline::After(_) => {}
        Deadline::At(_) => uses.start = true,
    }
    uses
}

// Returns what a limiter or channel needs: a channel needs a name for both of its ends.
fn object_use(kind: ObjectKind) -> Uses
    ensures { result ≡ object_use kind }
{
    let mut uses = no_uses();
    match kind {
        ObjectKind::Limiter(_) => {}
        ObjectKind::Channel(_) => uses.channel = true,
    }
    uses
}

// Returns what a step needs that asks a limiter or channel for something: a token needs a holder.
fn ask_use(ask: Ask) -> Uses
    ensures { result ≡ ask_use ask }
{
    let mut uses = no_uses();
    match ask {
        Ask::Acquire => uses.acquire = true,
        Ask::Send => {}
        Ask::Receive => {}
    }
    uses
}

// Returns what a started task or a `repeat` needs, which divides its part of the input or not.
fn over_use(divides: bool) -> Uses
    ensures { result ≡ record no_uses { over = divides } }
{
    let mut uses = no_uses();
    uses.over = divides;
    uses
}

// Returns what a handler needs.
fn handling_use() -> Uses
    ensures { result ≡ record no_uses { handling = true } }
{
    let mut uses = no_uses();
    uses.handling = true;
    uses
}
