use exceptions::{Exc, Label};
use input_lines::Part;
use job_tree::{Body, Handler, Step};
use nursery_book::NurseryId;

/// An unfinished block of a task. The frames of a task are nested in each other.
#[derive(Drop)]
pub(crate) enum Frame<'a> {
    /// The steps of a block that were not begun.
    Steps(&'a [Step]),
    /// A cancel scope.
    Scope {
        /// Whether it raises `TooSlow` if it caught a cancellation and nothing else is left.
        fail: bool,
    },
    /// An event, a limiter or a channel.
    Event,
    /// The block of an `acquire`, which has a token.
    Token {
        /// The label of the limiter, boxed so that other frames take no space for one.
        limiter: Box<Label>,
    },
    /// The block of a `receive`.
    Received {
        /// The part that was received.
        part: Part<'a>,
    },
    /// The body of a nursery.
    Nursery {
        /// The nursery.
        id: NurseryId,
    },
    /// The passes of a `repeat`.
    Repeat {
        /// The number of the one that runs.
        pass: u64,
        /// How many come after it.
        left: u64,
        /// Into how many cuts a `repeat over` divides the part of the task: one for each pass.
        cuts: Option<u64>,
        /// Its block.
        body: &'a Body,
    },
    /// The body of a `try`.
    Try {
        /// Its handler, if it has one that has not been tried.
        handler: Option<&'a Handler>,
        /// Its cleanup, if it has one.
        cleanup: &'a Option<Body>,
    },
    /// A handler.
    Handler {
        /// The rest of the split, which the handler does not get.
        rest: Option<Box<Exc>>,
        /// The cleanup of its `try`, if it has one.
        cleanup: &'a Option<Body>,
    },
    /// A cleanup.
    Cleanup {
        /// The outcome of the `try` before its cleanup.
        outcome: Option<Box<Exc>>,
    },
}

// The value in the unused places of a short stack.
impl<'a> Default for Frame<'a> {
    fn default() -> Frame<'a> {
        Frame::Scope { fail: false }
    }
}
