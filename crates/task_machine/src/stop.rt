use cancel_scopes::ScopeId;
use exceptions::Exc;
use input_lines::{Answer, Kernel, Part, Request};
use job_tree::{Ask, Body, Name};
use nursery_book::NurseryId;
use objects::Grant;

/// Why a task continues: the argument of `Task::turn`. It must fit the last `Stop` of the task.
#[derive(Drop)]
pub enum Wake<'a> {
    /// It was started, and has its first turn.
    Begin,
    /// Its moment has come: its sleep is due, and it sees no cancellation; the event that it waits for is set; it has waited for a
    /// limiter or channel as long as `forever`; or, a round later than something else, it begins, it raises `Cancelled` after a
    /// checkpoint, or the nursery that it waits for is left.
    Due,
    /// It sees a cancellation while it sleeps, while it waits for an event, or while it waits for a limiter or channel, whose queue
    /// it leaves.
    Seen,
    /// A kernel answered its request.
    Answer(Answer<'a>),
    /// The limiter or channel that it asked grants this.
    Granted(Grant<'a>),
    /// The nursery that it waits for is settled: its body and all its children have ended.
    Settled,
}

/// What a task asks of a limiter or channel.
#[derive(Clone, Copy)]
pub struct ObjectRequest<'a> {
    /// The limiter or channel.
    pub object: ScopeId,
    /// What is asked for.
    pub ask: Ask,
    /// The part of the input that the task has, which it sends if it asks to.
    pub part: Part<'a>,
}

/// Why a task does not continue: where a turn stopped.
#[derive(Drop)]
pub enum Stop<'a> {
    /// It requests an answer of a kernel on its part. It continues with `Wake::Answer`.
    Ask(Request<'a>),
    /// It sleeps until this moment. It continues with `Wake::Due` or `Wake::Seen`.
    Sleep(u64),
    /// It waits for this open event, from the present moment on. It continues with `Wake::Due` or `Wake::Seen`.
    WaitFor(ScopeId),
    /// It asks this of an open limiter or channel, in the present moment. It continues with `Wake::Granted`; with `Wake::Seen`, if it
    /// sees a cancellation before something is granted; or with `Wake::Due`, if it has waited as long as `forever`.
    Queue(ObjectRequest<'a>),
    /// It was cancelled at a checkpoint, or before it asked a limiter or channel, and raises `Cancelled` in this moment, one or two
    /// rounds later. It continues with `Wake::Due`.
    GiveUp(u64),
    /// It waits for the children of this nursery. It continues with `Wake::Settled`.
    Wait(NurseryId),
    /// It ended, with this exception or none. It does not continue.
    Ended(Option<Exc>),
}

/// The blocked state of a task: what it needs to continue.
#[derive(Drop)]
pub(crate) enum TaskState<'a> {
    /// It has not begun.
    ToBegin {
        /// The moment in which it begins.
        at: u64,
    },
    /// It asked a kernel for an answer.
    Asked {
        /// What was asked.
        kernel: Kernel<'a>,
        /// What the answer is for.
        purpose: Purpose,
    },
    /// It sleeps.
    Asleep {
        /// Whether it sleeps for a `pace`.
        paced: bool,
        /// The number of ticks.
        ticks: u64,
        /// From this moment on.
        since: u64,
    },
    /// It waits for an event.
    Waiting {
        /// The event.
        event: ScopeId,
        /// From this moment on.
        since: u64,
    },
    /// It asked a limiter or channel.
    Queued {
        /// The limiter or channel.
        object: ScopeId,
        /// What it asked for.
        ask: Ask,
        /// The moment in which it asked.
        since: u64,
        /// The block that it runs with what it is granted.
        body: &'a Body,
    },
    /// It was cancelled, and raises `Cancelled` a round after this moment.
    GivingUp {
        /// The moment in which a checkpoint was cancelled, or the next one, if the task did not ask a limiter or channel.
        since: u64,
    },
    /// It waits for the children of a nursery.
    Awaits {
        /// The nursery.
        nursery: NurseryId,
        /// The moment in which the nursery's body ended.
        since: u64,
    },
    /// It ended.
    Over,
}

/// What a task does with a kernel's answer.
#[derive(Clone, Copy)]
pub(crate) enum Purpose {
    /// To show the lines.
    Shows,
    /// To show the line, or to raise an exception of that name if there is none.
    Needs(Name),
    /// To sleep the number of lines divided by this, rounded up.
    Paces(u64),
}

/// The result of a step of a turn.
#[derive(Drop)]
pub(crate) enum Moved<'a> {
    /// The task continues, with this exception or none.
    On(Option<Exc>),
    /// It stops.
    Stops(Stop<'a>),
}
