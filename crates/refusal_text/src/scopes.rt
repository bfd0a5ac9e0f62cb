ghost use Rattle.std.specs.Prelude.{◌≡◌, ◌++◌, ◌∷◌, [], List, IfOk, OnOk};
ghost use Rattle.job_tree.specs.declared.format.Format.{Format};
ghost use Rattle.job_tree.specs.Blocks.{step_of, steps_of, handled_of, cleaned_of};
ghost use Rattle.job_tokens.specs.Shapes.{shapes_of};
ghost use Rattle.job_syntax.specs.Reading.{job_at};
ghost use Rattle.job_reader.specs.Given.{is_among};
ghost use Rattle.job_reader.specs.Targets.{of_kind};
ghost use Rattle.job_reader.specs.Uses.{Use, use_of, inside, uses_of, uses_in, handled_uses, cleaned_uses};
ghost use Rattle.job_hints.specs.ByGrammar.{keyword_in};
ghost use Rattle.refusal_text.specs.Scopes.{around_stray, enclosing_names, kind_used, named_around, names_held, or_names};

use job_hints::keyword_in;
use job_reader::TargetKind;
use job_syntax::{Keyword, job_at};
use job_tokens::{Shape, Token};
use job_tree::{Body, Handler, Name, Step};
use std::alloc::{AllocError, Global};

// Returns what a step uses whose name is after this token.
pub(crate) fn kind_used(before: Option<Shape>) -> TargetKind
    ensures { result ≡ kind_used (keyword_in before) }
{
    match keyword_in(before) {
        Some(Keyword::Set) => TargetKind::Event,
        Some(Keyword::Wait) => TargetKind::Event,
        Some(Keyword::Acquire) => TargetKind::Limiter,
        Some(Keyword::Send) => TargetKind::Channel,
        Some(Keyword::Receive) => TargetKind::Channel,
        Some(Keyword::Close) => TargetKind::Channel,
        _ => TargetKind::Scope,
    }
}

// Returns the names of what encloses the first use of a name that is not among them, in the job with these tokens: of what the
// step uses.
pub(crate) fn enclosing_names(
    alloc: Global,
    tokens: &[Token],
) -> Result<Option<Vec<Name>>, AllocError>
    ensures { (format : Format) → IfOk result (λ names. names_held names ≡ enclosing_names (job_at format (shapes_of tokens.now))) }
{
    let Some(job) = job_at(alloc, tokens)? else {
        return Ok(None);
    };
    let (_name, steps) = job;
    let names = names_around_stray(alloc, steps.as_slice())?;
    Ok(names)
}

// Returns the same for the steps of a job.
fn names_around_stray(alloc: Global, steps: &[Step]) -> Result<Option<Vec<Name>>, AllocError>
    ensures { IfOk result (λ names. names_held names ≡ around_stray (uses_of [] (steps_of steps.now))) }
{
    let found = search_steps(alloc, steps, &Around::Nothing)?;
    Ok(found)
}

// What encloses a block and can be named, the innermost first: the scopes and nurseries, events, limiters and channels.
#[derive(Clone, Copy)]
enum Around<'a> {
    Nothing,
    Inside(TargetKind, &'a Name, &'a Around<'a>),
}

// Searches the steps of a block.
#[cycle(search)]
fn search_steps(
    alloc: Global,
    steps: &[Step],
    around: &Around,
) -> Result<Option<Vec<Name>>, AllocError>
    ensures { IfOk result (λ found. (more : List Use) →
        around_stray (uses_of (named_around around.now) (steps_of steps.now) ++ more)
        ≡ or_names (names_held found) (around_stray more)) }
{
    'steps: for step in steps {
        let found = search_step(alloc, step, around)?;
        if found.is_some() {
            return Ok(found);
        }
    }
    Ok(None)
}

// Searches a step.
#[cycle(search)]
fn search_step(alloc: Global, step: &Step, around: &Around) -> Result<Option<Vec<Name>>, AllocError>
    ensures { IfOk result (λ found. (more : List Use) →
        around_stray (uses_in (named_around around.now) (step_of step.now) ++ more)
        ≡ or_names (names_held found) (around_stray more)) }
{
    match step {
        Step::Cancel(name) => search_use(alloc, TargetKind::Scope, name, around),
        Step::Set(name) => search_use(alloc, TargetKind::Event, name, around),
        Step::Wait(name) => search_use(alloc, TargetKind::Event, name, around),
        Step::Ask { name, ask, body } => search_ask(
            alloc,
            TargetKind::asked(*ask),
            name,
            body,
            around,
        ),
        Step::Close(name) => search_use(alloc, TargetKind::Channel, name, around),
        Step::Scope { name, body, .. } => search_inside(
            alloc,
            TargetKind::Scope,
            name,
            body,
            around,
        ),
        Step::Nursery { name, body, .. } => search_inside(
            alloc,
            TargetKind::Scope,
            name,
            body,
            around,
        ),
        Step::Event { name, body } => search_inside(alloc, TargetKind::Event, name, body, around),
        Step::Object { name, kind, body } => search_inside(
            alloc,
            TargetKind::opened(*kind),
            name,
            body,
            around,
        ),
        Step::Start { body, .. } => search_steps(alloc, body.as_slice(), around),
        Step::Repeat { body, .. } => search_steps(alloc, body.as_slice(), around),
        Step::Try {
            body,
            handler,
            cleanup,
        } => search_try(alloc, body, handler, cleanup, around),
        _ => Ok(None),
    }
}

// Searches a block that can be named.
#[cycle(search)]
fn search_inside(
    alloc: Global,
    kind: TargetKind,
    name: &Name,
    body: &Body,
    around: &Around,
) -> Result<Option<Vec<Name>>, AllocError>
    ensures { IfOk result (λ found. (more : List Use) →
        around_stray (uses_of (inside kind name.now (named_around around.now)) body.now ++ more)
        ≡ or_names (names_held found) (around_stray more)) }
{
    search_steps(
        alloc,
        body.as_slice(),
        &Around::Inside(kind, &*name, &*around),
    )
}

// Searches a step that uses a name and has a block.
#[cycle(search)]
fn search_ask(
    alloc: Global,
    kind: TargetKind,
    name: &Name,
    body: &Body,
    around: &Around,
) -> Result<Option<Vec<Name>>, AllocError>
    ensures { IfOk result (λ found. (more : List Use) →
        around_stray ((use_of kind name.now (named_around around.now) ∷ uses_of (named_around around.now) body.now) ++ more)
        ≡ or_names (names_held found) (around_stray more)) }
{
    let found = search_use(alloc, kind, name, around)?;
    if found.is_some() {
        return Ok(found);
    }
    let found = search_steps(alloc, body.as_slice(), around)?;
    Ok(found)
}

// Searches the parts of a `try`.
#[cycle(search)]
fn search_try(
    alloc: Global,
    body: &Body,
    handler: &Option<Handler>,
    cleanup: &Option<Body>,
    around: &Around,
) -> Result<Option<Vec<Name>>, AllocError>
    ensures { IfOk result (λ found. (more : List Use) →
        around_stray ((uses_of (named_around around.now) body.now
        ++ (handled_uses (named_around around.now) (handled_of handler.now)
        ++ cleaned_uses (named_around around.now) (cleaned_of cleanup.now))) ++ more)
        ≡ or_names (names_held found) (around_stray more)) }
{
    let found = search_steps(alloc, body.as_slice(), around)?;
    if found.is_some() {
        return Ok(found);
    }
    let found = search_handler(alloc, handler, around)?;
    if found.is_some() {
        return Ok(found);
    }
    let found = search_cleanup(alloc, cleanup, around)?;
    Ok(found)
}

// Searches the handler of a `try`, if it has one.
#[cycle(search)]
fn search_handler(
    alloc: Global,
    handler: &Option<Handler>,
    around: &Around,
) -> Result<Option<Vec<Name>>, AllocError>
    ensures { IfOk result (λ found. (more : List Use) →
        around_stray (handled_uses (named_around around.now) (handled_of handler.now) ++ more)
        ≡ or_names (names_held found) (around_stray more)) }
{
    match handler {
        Some(handler) => search_steps(alloc, handler.body.as_slice(), around),
        None => Ok(None),
    }
}

// Searches the cleanup of a `try`, if it has one.
#[cycle(search)]
fn search_cleanup(
    alloc: Global,
    cleanup: &Option<Body>,
    around: &Around,
) -> Result<Option<Vec<Name>>, AllocError>
    ensures { IfOk result (λ found. (more : List Use) →
        around_stray (cleaned_uses (named_around around.now) (cleaned_of cleanup.now) ++ more)
        ≡ or_names (names_held found) (around_stray more)) }
{
    match cleanup {
        Some(body) => search_steps(alloc, body.as_slice(), around),
        None => Ok(None),
    }
}

// Returns the names of what encloses a use of a name and is of its kind, if the name is not among them.
fn search_use(
    alloc: Global,
    kind: TargetKind,
    name: &Name,
    around: &Around,
) -> Result<Option<Vec<Name>>, AllocError>
    ensures { IfOk result (λ found. (more : List Use) → around_stray (use_of kind name.now (named_around around.now) ∷ more)
        ≡ or_names (names_held found) (around_stray more)) }
{
    if is_around(kind, name, around) {
        return Ok(None);
    }
    let mut names = Vec::new(alloc);
    push_names(&mut names, kind, around)?;
    Ok(Some(names))
}

// Returns whether one of these is of the kind and has the name.
fn is_around(kind: TargetKind, name: &Name, around: &Around) -> bool
    ensures { result ≡ is_among (of_kind kind (named_around around.now)) name.now }
{
    match around {
        Around::Nothing => false,
        Around::Inside(other, inner, outer) => {
            if !kind.is_same(*other) {
                return is_around(kind, name, outer);
            }
            name == *inner || is_around(kind, name, outer)
        }
    }
}

// Appends the names of those that are of the kind.
fn push_names(names: &mut Vec<Name>, kind: TargetKind, around: &Around) -> Result<(), AllocError>
    ensures { OnOk result (names.new.items ≡ names.old.items ++ of_kind kind (named_around around.now)) }
{
    match around {
        Around::Nothing => Ok(()),
        Around::Inside(other, name, outer) => {
            if !kind.is_same(*other) {
                push_names(names, kind, outer)?;
                return Ok(());
            }
            names.push(**name)?;
            push_names(names, kind, outer)?;
            Ok(())
        }
    }
}
