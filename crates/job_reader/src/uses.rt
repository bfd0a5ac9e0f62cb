ghost use Rattle.std.specs.Prelude.{◌≡◌, ◌++◌, ◌∷◌, [], MatchOption, List};
ghost use Rattle.job_tree.specs.Blocks.{step_of, steps_of, handled_of, cleaned_of};
ghost use Rattle.job_reader.specs.Given.{is_among};
ghost use Rattle.job_reader.specs.Targets.{of_kind};
ghost use Rattle.job_reader.specs.Uses.{Use, use_of, inside, uses_of, uses_in, handled_uses, cleaned_uses, targets_in, stray_in};
ghost use Rattle.job_reader.specs.Searches.{named_around, found_in};

use crate::target::TargetKind;
use job_syntax::Role;
use job_tokens::Token;
use job_tree::{Body, Handler, Name, Step};

/// Returns the place of the first name that a step uses and that nothing of its kind around the step has: in a `cancel` a name
/// that is not that of an enclosing scope or nursery, in a `set` or `wait` of an enclosing event, in an `acquire` of an enclosing
/// limiter, in a `send`, `receive` or `close` of an enclosing channel; or `None` if there is none. `steps` are the steps of the
/// job, `tokens` are the tokens of its text, and `roles` are their roles, in the same order. What encloses a `start` also
/// encloses the body of the started task. Does not allocate.
pub fn stray_use(steps: &[Step], tokens: &[Token], roles: &[Role]) -> Option<usize>
    ensures { result ≡ stray_in (uses_of [] (steps_of steps.now)) (targets_in tokens.now roles.now) }
{
    let search = Search::Passed(Left { tokens, roles });
    match search_steps(steps, &Around::Nothing, search) {
        Search::Passed(_) => None,
        Search::Stopped(at) => at,
    }
}

// What encloses a block and can be named, the innermost first: the scopes and nurseries, events, limiters and channels.
#[derive(Clone, Copy)]
enum Around<'a> {
    Nothing,
    Inside(TargetKind, &'a Name, &'a Around<'a>),
}

// The tokens that are left, with their roles.
#[derive(Clone, Copy)]
struct Left<'a> {
    tokens: &'a [Token],
    roles: &'a [Role],
}

// The state of a search for a stray use of a name: it has passed the uses before some tokens, or it has its result.
#[derive(Clone, Copy)]
enum Search<'a> {
    Passed(Left<'a>),
    Stopped(Option<usize>),
}

// Continues the search through the steps of a block.
#[cycle(search)]
fn search_steps<'a>(steps: &[Step], around: &Around, search: Search<'a>) -> Search<'a>
    ensures { (more : List Use) → found_in result more
        ≡ found_in search.entry (uses_of (named_around around.now) (steps_of steps.now) ++ more) }
{
    let mut found = search;
    'steps: for step in steps {
        if let Search::Stopped(_) = found {
            return found;
        }
        found = search_step(step, around, found);
    }
    found
}

#[cycle(search)]
fn search_step<'a>(step: &Step, around: &Around, search: Search<'a>) -> Search<'a>
    ensures { (more : List Use) → found_in result more
        ≡ found_in search.entry (uses_in (named_around around.now) (step_of step.now) ++ more) }
{
    match step {
        Step::Cancel(name) => search_use(TargetKind::Scope, name, around, search),
        Step::Set(name) => search_use(TargetKind::Event, name, around, search),
        Step::Wait(name) => search_use(TargetKind::Event, name, around, search),
        Step::Ask { name, ask, body } => {
            let used = search_use(TargetKind::asked(*ask), name, around, search);
            search_steps(body.as_slice(), around, used)
        }
        Step::Close(name) => search_use(TargetKind::Channel, name, around, search),
        Step::Scope { name, body, .. } => search_inside(
            TargetKind::Scope,
            name,
            body,
            around,
            search,
        ),
        Step::Nursery { name, body, .. } => search_inside(
            TargetKind::Scope,
            name,
            body,
            around,
            search,
        ),
        Step::Event { name, body } => search_inside(TargetKind::Event, name, body, around, search),
        Step::Object { name, kind, body } => search_inside(
            TargetKind::opened(*kind),
            name,
            body,
            around,
            search,
        ),
        Step::Start { body, .. } => search_steps(body.as_slice(), around, search),
        Step::Repeat { body, .. } => search_steps(body.as_slice(), around, search),
        Step::Try {
            body,
            handler,
            cleanup,
        } => {
            let tried = search_steps(body.as_slice(), around, search);
            let handled = search_handler(handler, around, tried);
            search_cleanup(cleanup, around, handled)
        }
        _ => search,
    }
}

// Continues the search through a block that can be named.
#[cycle(search)]
fn search_inside<'a>(
    kind: TargetKind,
    name: &Name,
    body: &Body,
    around: &Around,
    search: Search<'a>,
) -> Search<'a>
    ensures { (more : List Use) → found_in result more
        ≡ found_in search.entry (uses_of (inside kind name.now (named_around around.now)) body.now ++ more) }
{
    search_steps(
        body.as_slice(),
        &Around::Inside(kind, &*name, &*around),
        search,
    )
}

#[cycle(search)]
fn search_handler<'a>(handler: &Option<Handler>, around: &Around, search: Search<'a>) -> Search<'a>
    ensures { (more : List Use) → found_in result more
        ≡ found_in search.entry (handled_uses (named_around around.now) (handled_of handler.now) ++ more) }
{
    match handler {
        Some(handler) => search_steps(handler.body.as_slice(), around, search),
        None => search,
    }
}

#[cycle(search)]
fn search_cleanup<'a>(cleanup: &Option<Body>, around: &Around, search: Search<'a>) -> Search<'a>
    ensures { (more : List Use) → found_in result more
        ≡ found_in search.entry (cleaned_uses (named_around around.now) (cleaned_of cleanup.now) ++ more) }
{
    match cleanup {
        Some(body) => search_steps(body.as_slice(), around, search),
        None => search,
    }
}

// Continues the search past one use of a name, which is the next name that a step uses. `kind` is what the step uses.
fn search_use<'a>(kind: TargetKind, name: &Name, around: &Around, search: Search<'a>) -> Search<'a>
    ensures { (more : List Use) → found_in result more
        ≡ found_in search.entry (use_of kind name.now (named_around around.now) ∷ more) }
{
    let Search::Passed(left) = search else {
        return search;
    };
    let Some((at, left)) = next_target(left) else {
        return Search::Stopped(None);
    };
    if is_around(kind, name, around) {
        Search::Passed(left)
    } else {
        Search::Stopped(Some(at))
    }
}

// Returns the place of the first name that a step uses, and the tokens after it.
fn next_target(left: Left<'_>) -> Option<(usize, Left<'_>)>
    ensures { MatchOption result (targets_in left.entry.tokens.now left.entry.roles.now ≡ [])
        (λ found. targets_in left.entry.tokens.now left.entry.roles.now ≡ found.0 ∷ targets_in found.1.tokens.now found.1.roles.now) }
{
    let mut roles = left.roles;
    let mut tokens = left.tokens;
    'tokens: while let Some((token, tokens_left)) = tokens.split_first() {
        let Some((role, roles_left)) = roles.split_first() else {
            return None;
        };
        tokens = tokens_left;
        roles = roles_left;
        if *role == Role::Target {
            return Some((token.at, Left { tokens, roles }));
        }
    }
    None
}

// Returns whether one of these is of the kind and has the name.
fn is_around(kind: TargetKind, name: &Name, around: &Around) -> bool
    ensures { result ≡ is_among (of_kind kind (named_around around.now)) name.now }
{
    match around {
        Around::Nothing => false,
        Around::Inside(other, inner, outer) => {
            if !kind.is_same(*other) {
                return is_around(kind, name, outer);
            }
            name == *inner || is_around(kind, name, outer)
        }
    }
}
