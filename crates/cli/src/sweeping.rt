ghost use Rattle.std.specs.Prelude.{◌≡◌, ◌<◌, ◌≤◌, ◌-◌, ◌/◌, IfOk};
ghost use Rattle.std.specs.Option.{option_map};
ghost use Rattle.cli.specs.Reads.{Reads};
ghost use Rattle.cli.specs.Spelled.{named_target, placed_target, spelled_span, spelled_target, spelled_values};
ghost use Rattle.cli.specs.Values.{values_from, values_in};
ghost use Rattle.cli.specs.Words.{AreValues};

use crate::command::CommandFault;
use crate::common::refusal;
use crate::cutting::{cut_at, long_number, short_number};
use job_edits::Target;
use job_tree::Name;
use std::alloc::{AllocError, Global};

// The maximum number of values of a sweep.
const MAX_VALUES: u32 = 100_000;

// Returns the number that a sweep varies, given the name of a scope or nursery, or a place.
pub(crate) fn target_of(
    alloc: Global,
    of: Option<&str>,
    at: Option<&str>,
) -> Result<Target, CommandFault>
    ensures { Reads (λ target. target) (spelled_target (option_map (λ word. word.now) of.entry) (option_map (λ word. word.now) at.entry))
        result }
{
    match (of, at) {
        (Some(word), _) => named_target(alloc, word),
        (None, Some(place)) => placed_target(alloc, place),
        (None, None) => Err(refusal(
            alloc,
            "error: name the number to vary: --of NAME or --at LINE:COL\n",
        )),
    }
}

// Returns the deadline of the scope or nursery with this name as a target.
fn named_target(alloc: Global, word: &str) -> Result<Target, CommandFault>
    ensures { Reads (λ target. target) (named_target word.now) result }
{
    if let Some(name) = Name::new(word.as_bytes()) {
        return Ok(Target::NumberOf(name));
    }
    let text = format!(in alloc;
        "error: `{word}` is no name: --of takes the name of a scope or nursery\n"
    )?;
    Err(CommandFault::Refused { text })
}

// Returns the number at a place, such as `4:18`, as a target.
fn placed_target(alloc: Global, place: &str) -> Result<Target, CommandFault>
    ensures { Reads (λ target. target) (placed_target place.now) result }
{
    match target_at(place) {
        Some(target) => Ok(target),
        None => {
            let text = format!(in alloc;
                "error: `{place}` is no place: --at takes LINE:COL, as 4:18\n"
            )?;
            Err(CommandFault::Refused { text })
        }
    }
}

// Returns the number at the place that a text spells, as a target.
fn target_at(place: &str) -> Option<Target>
    ensures { result ≡ placed_target place.now }
{
    let (line, column) = cut_at(place, ":")?;
    Some(Target::At {
        line: long_number(line)?,
        column: long_number(column)?,
    })
}

// A first and a last value, and the step from one to the next.
#[derive(Clone, Copy)]
struct Span {
    first: u32,
    last: u32,
    step: u32,
}

// Returns the values of a text such as `1..60` or `1..60:5`: at least one and at most 100,000. The error refuses
// any other text, or is that memory runs out.
pub(crate) fn values_of(alloc: Global, text: &str) -> Result<Vec<u64>, CommandFault>
    ensures fit { IfOk result (λ values. AreValues values.items) }
    ensures spelled { Reads (λ values. values.items) (spelled_values text.now) result }
{
    let Some(span) = span_of(text) else {
        return Err(refused_span(alloc, text));
    };
    if span.step == 0 || span.last < span.first {
        return Err(refused_span(alloc, text));
    }
    if (span.last - span.first) / span.step >= MAX_VALUES {
        let text = format!(in alloc; "error: `{text}` has more than {MAX_VALUES} values\n")?;
        return Err(CommandFault::Refused { text });
    }
    Ok(values_in(alloc, span)?)
}

// Returns the values of a span.
fn values_in(alloc: Global, span: Span) -> Result<Vec<u64>, AllocError>
    requires some_step { 1 ≤ span.step }
    requires ordered { span.first ≤ span.last }
    requires few { (span.last - span.first) / span.step < 100000 }
    ensures { IfOk result (λ values. values.items ≡ values_in span) }
{
    let Span { first, last, step } = span;
    values_from(alloc, first, step, (last - first) / step + 1)
}

// Returns the numbers of a span such as `1..60` or `1..60:5`. The step is 1 if none is given.
fn span_of(text: &str) -> Option<Span>
    ensures { result ≡ spelled_span text.now }
{
    let (first, rest) = cut_at(text, "..")?;
    let (last, step) = match cut_at(rest, ":") {
        Some((last, step)) => (last, short_number(step)?),
        None => (rest, 1),
    };
    Some(Span {
        first: short_number(first)?,
        last: short_number(last)?,
        step,
    })
}

// Returns the refusal of words that are not a span.
fn refused_span(alloc: Global, text: &str) -> CommandFault {
    let message = format!(in alloc;
        "error: `{text}` gives no values: --values takes A..B or A..B:STEP, as 1..60 or 10..100:5, with A at most B and STEP at least 1\n"
    );
    match message {
        Ok(text) => CommandFault::Refused { text },
        Err(_) => CommandFault::NoMemory,
    }
}

// Returns `count` values from a first one on, each a step above the one before it.
fn values_from(alloc: Global, first: u32, step: u32, count: u32) -> Result<Vec<u64>, AllocError>
    ensures { IfOk result (λ values. values.items ≡ values_from first step count) }
{
    let mut values = Vec::new(alloc);
    let mut value = u64::from(first);
    let mut left = count;
    'values: while left > 0 {
        values.push(value)?;
        value += u64::from(step);
        left -= 1;
    }
    Ok(values)
}
