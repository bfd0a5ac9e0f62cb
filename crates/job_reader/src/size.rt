ghost use Rattle.std.specs.Prelude.{◌≡◌, ◌+◌, ◌*◌};
ghost use Rattle.std.specs.Io.Iter.{u64_saturate};
ghost use Rattle.job_tree.specs.Blocks.{step_of, steps_of, handled_of, cleaned_of};
ghost use Rattle.job_tree.specs.Names.{copies_of, size_of, size_in, handled_size, cleaned_size};

use job_tree::{Body, Handler, Step};

/// Returns the number of step instances of a block, or 18,446,744,073,709,551,615 (the maximum `u64`) if it has
/// more. The copies of a `start .. over` and the passes of a `repeat` are counted. Does not allocate.
#[cycle(size)]
pub fn size_of(steps: &[Step]) -> u64
    ensures { result ≡ u64_saturate (size_of (steps_of steps.now)) }
{
    let mut size: u64 = 0;
    'steps: for step in steps {
        let more = size_in(step);
        size = size.saturating_add(more);
    }
    size
}

// Returns the number of step instances of one step.
#[cycle(size)]
fn size_in(step: &Step) -> u64
    ensures { result ≡ u64_saturate (size_in (step_of step.now)) }
{
    match step {
        Step::Scope { body, .. } => one_more(size_of(body.as_slice())),
        Step::Nursery { body, .. } => one_more(size_of(body.as_slice())),
        Step::Event { body, .. } => one_more(size_of(body.as_slice())),
        Step::Object { body, .. } => one_more(size_of(body.as_slice())),
        Step::Ask { body, .. } => one_more(size_of(body.as_slice())),
        Step::Start { over, body, .. } => times(*over, one_more(size_of(body.as_slice()))),
        Step::Repeat { count, body, .. } => {
            one_more(times(Some(*count), one_more(size_of(body.as_slice()))))
        }
        Step::Try {
            body,
            handler,
            cleanup,
        } => {
            let tried = one_more(size_of(body.as_slice()));
            let handled = handled_size(handler);
            let cleaned = cleaned_size(cleanup);
            tried.saturating_add(handled).saturating_add(cleaned)
        }
        _ => 1,
    }
}

#[cycle(size)]
fn handled_size(handler: &Option<Handler>) -> u64
    ensures { result ≡ u64_saturate (handled_size (handled_of handler.now)) }
{
    match handler {
        Some(handler) => size_of(handler.body.as_slice()),
        None => 0,
    }
}

#[cycle(size)]
fn cleaned_size(cleanup: &Option<Body>) -> u64
    ensures { result ≡ u64_saturate (cleaned_size (cleaned_of cleanup.now)) }
{
    match cleanup {
        Some(body) => size_of(body.as_slice()),
        None => 0,
    }
}

fn one_more(size: u64) -> u64
    ensures { result ≡ u64_saturate (1 + size) }
{
    size.saturating_add(1)
}

// Returns the number of step instances of all copies or all passes.
fn times(over: Option<u64>, size: u64) -> u64
    ensures { result ≡ u64_saturate (copies_of over * size) }
{
    match over {
        Some(copies) => copies.saturating_mul(size),
        None => size,
    }
}
