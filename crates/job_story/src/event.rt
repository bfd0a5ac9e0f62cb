use block_exits::Kind;
use exceptions::{Exc, Label};
use job_tree::{Ask, Name, ObjectKind};

/// A part of the input: the place of its first byte, and the place after its last byte. Places are in bytes.
#[derive(Clone, Copy, Debug, PartialEq, Eq)]
pub struct Range {
    /// The place of the first byte.
    pub from: usize,
    /// The place after the last byte.
    pub to: usize,
}

/// A line of the input: the place of its first byte, and its length in bytes without the newline.
#[derive(Clone, Copy, Debug, PartialEq, Eq)]
pub struct Span {
    /// The place of the first byte, or of the newline if the line is empty.
    pub at: usize,
    /// The length in bytes, without the newline.
    pub len: usize,
}

/// What a task did when `Cancelled` was raised in it.
#[derive(Drop)]
pub enum During {
    /// It was at a checkpoint.
    Checkpoint,
    /// It slept.
    Sleeping {
        /// The tick in which it fell asleep.
        since: u64,
    },
    /// It waited for an event.
    Waiting {
        /// The label of the event.
        event: Label,
        /// The moment in which it began to wait.
        since: u64,
    },
    /// It waited in the queue of a limiter or channel.
    InQueue {
        /// What it had asked.
        ask: Ask,
        /// The label of the limiter or channel.
        object: Label,
        /// The moment in which it asked.
        since: u64,
    },
    /// It was to ask something of a limiter or channel, and did not, since it saw a cancellation.
    BeforeAsking {
        /// What it was to ask.
        ask: Ask,
        /// The label of the limiter or channel.
        object: Label,
    },
}

/// That a task asked something of a limiter or channel.
#[derive(Clone, Copy, Debug, PartialEq, Eq)]
pub struct Asked {
    /// What it asked.
    pub ask: Ask,
    /// The moment in which it asked.
    pub since: u64,
    /// Its part of the input in that moment.
    pub part: Range,
}

/// One thing that happened to a task. Exceptions are boxed, so that the many events without one take less memory.
#[derive(Drop)]
pub enum Happening {
    /// The task entered a scope or a nursery.
    Enters {
        /// Whether it entered a scope or a nursery.
        kind: Kind,
        /// The label of the scope or nursery.
        label: Label,
        /// The tick from which its deadline cancels it, or `None` if it has no deadline.
        deadline: Option<u64>,
        /// Whether it is shielded, so that it hides cancellations from outside.
        shield: bool,
    },
    /// The task entered an event (the block `event` of a job). Nothing happens to the task where the block ends.
    EntersEvent {
        /// The label of the event.
        label: Label,
    },
    /// The task fell asleep. A sleep that takes no time is not an event.
    Sleeps {
        /// The tick at which the sleep is due, or `None` for `forever`.
        until: Option<u64>,
    },
    /// `Cancelled` was raised in the task.
    IsCancelled {
        /// The innermost scope or nursery whose cancellation is the one that the task saw: the first, from the inside, that is
        /// cancelled from the effective deadline (`sight`) on. `None` if there is no such scope or nursery, which occurs in the
        /// story of a job only where a task does not ask a limiter or channel (`During::BeforeAsking`).
        by: Option<Label>,
        /// What the task did then.
        during: During,
        /// Whether the task was in a `finally` block, its own or that of a task that started it.
        in_cleanup: bool,
    },
    /// A kernel found these lines.
    Finds {
        /// The lines, in order. There may be none, except for a `need`.
        lines: Vec<Span>,
    },
    /// A `need` step found no line.
    Misses {
        /// The name of the exception that the step raised.
        name: Name,
    },
    /// A `raise` step.
    Raises {
        /// The name of the exception.
        name: Name,
    },
    /// A `cancel` step.
    Cancels {
        /// The innermost scope or nursery of that name that encloses the task, or `None` if there is none.
        label: Option<Label>,
    },
    /// A `set` step.
    Sets {
        /// The innermost event of that name that encloses the task, or `None` if there is none.
        label: Option<Label>,
    },
    /// The task waits for an event. A wait for an event that is set by the next round is a checkpoint, and is not an event of a
    /// story.
    Awaits {
        /// The label of the event.
        event: Label,
    },
    /// The task goes on, since the event for which it waited is set.
    WasSet {
        /// The label of the event.
        event: Label,
    },
    /// The task entered a limiter or channel. Nothing happens to the task where the block ends.
    EntersObject {
        /// Whether it is a limiter or a channel, and of which size.
        kind: ObjectKind,
        /// Its label.
        label: Label,
    },
    /// The task asked something of a limiter or channel, and waits in the queue. What is granted in the next round is not waited
    /// for.
    Queues {
        /// What it asked.
        ask: Ask,
        /// The label of the limiter or channel.
        object: Label,
        /// The part of the input that the task has, which it sends if it asks to.
        part: Range,
        /// The moment in which it leaves the queue with an exception, or `None` if it is granted what it asked.
        left: Option<u64>,
    },
    /// The task is granted what it asked.
    Gets {
        /// What it asked.
        ask: Ask,
        /// The label of the limiter or channel.
        object: Label,
        /// When it asked, if it did not wait in the queue.
        at_once: Option<Asked>,
    },
    /// The task finds a channel closed, to which it was to send, or closed and empty, from which it was to receive.
    FindsClosed {
        /// What it asked.
        ask: Ask,
        /// The label of the channel.
        object: Label,
        /// When it asked, if it did not wait in the queue.
        at_once: Option<Asked>,
    },
    /// The task waited in the queue as long as `forever`, and raises `Deadlock`.
    Deadlocks {
        /// What it asked.
        ask: Ask,
        /// The label of the limiter or channel.
        object: Label,
    },
    /// The block of an `acquire` ended, and the token of the task comes back.
    GivesTokenBack {
        /// The label of the limiter.
        object: Label,
    },
    /// A `close` step.
    ClosesChannel {
        /// The innermost channel of that name that encloses the task, or `None` if there is none.
        object: Option<Label>,
    },
    /// A handler begins.
    Handles {
        /// The exception with the leaves that match.
        matched: Box<Exc>,
        /// The exception with the other leaves, or `None` if every leaf matches.
        rest: Option<Box<Exc>>,
    },
    /// A `finally` block begins.
    Cleans {
        /// The exception with which the block before it, or the handler of that block, ended, or `None` if it ended without one.
        exc: Option<Box<Exc>>,
    },
    /// A cleanup (a `finally` block) ended with an exception, which replaces an earlier one.
    Replaces {
        /// The earlier exception, which is lost.
        lost: Box<Exc>,
        /// The exception that replaces it.
        fresh: Box<Exc>,
    },
    /// The body of a nursery ended, and the task waits for the children.
    Waits {
        /// The nursery.
        nursery: Label,
        /// The exception with which the body ended, or `None` if it ended without one.
        exc: Option<Box<Exc>>,
    },
    /// The task left a scope or a nursery.
    Leaves {
        /// Whether it left a scope or a nursery.
        kind: Kind,
        /// The label of the scope or nursery.
        label: Label,
        /// The exception with which the inside ended, or `None` if it ended without one.
        inside: Option<Box<Exc>>,
        /// Whether a cancellation was caught.
        caught: bool,
        /// The exception that propagates from it, or `None` if none does.
        outside: Option<Box<Exc>>,
    },
}

/// The kind of an event.
#[derive(Drop)]
pub enum What {
    /// The task starts.
    Starts {
        /// The nursery in which it was started, or `None` for the root task.
        home: Option<Label>,
        /// The task's part of the input.
        part: Range,
    },
    /// Something happens to the task between its start and its end.
    Happens(Happening),
    /// The task ends.
    Ends {
        /// The nursery in which it was started, or `None` for the root task.
        home: Option<Label>,
        /// The exception with which it ended, or `None` if it ended without one.
        exc: Option<Box<Exc>>,
    },
}

/// An event of a story: one thing that happened to one task.
#[derive(Drop)]
pub struct Event {
    /// The tick in which it happened.
    pub tick: u64,
    /// The label of the task.
    pub task: Label,
    /// What happened.
    pub what: What,
}
