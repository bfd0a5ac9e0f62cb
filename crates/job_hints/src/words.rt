ghost use Rattle.std.specs.Prelude.{◌≡◌};
ghost use Rattle.job_hints.specs.Advice.{trio_sentence, other_sentence};
ghost use Rattle.job_hints.specs.Words.{word_advice, foreign_advice, trio_advice, other_advice, is_condition, is_loop, is_exit, is_task, is_timeout, is_group};

use crate::advice::Advice;
use crate::shared::object_advice;
use job_tokens::Shape;
use job_tree::Name;

/// A word of a program on Trio that is no word of the language.
#[derive(Clone, Copy)]
pub enum TrioWord {
    /// Trio's `move_on_after` and `move_on_at`.
    MoveOn,
    /// Trio's `fail_after` and `fail_at`.
    FailAfter,
    /// Python's `await`.
    Await,
    /// Python's `async`.
    Async,
    /// Trio's `open_nursery`.
    OpenNursery,
    /// Trio's `start_soon`.
    StartSoon,
    /// Trio's `sleep_forever`.
    SleepForever,
    /// Trio's `Event`.
    Event,
    /// Trio's `set`, called as a method.
    SetEvent,
    /// Trio's `wait`, called as a method.
    WaitEvent,
}

/// A word of another language or library for which a job has something else, or nothing.
#[derive(Clone, Copy)]
pub enum OtherWord {
    /// A condition, such as `if`.
    Condition,
    /// A loop, such as `while`.
    Loop,
    /// What leaves a loop or a function, such as `break`.
    Exit,
    /// A handler, such as `catch`.
    Catch,
    /// What starts a task, such as `spawn`.
    Task,
    /// Python's `with`.
    With,
    /// A timeout, such as `wait_for`.
    Timeout,
    /// Go's `defer`.
    Defer,
    /// Go's `select`.
    Select,
    /// A group of tasks, such as `TaskGroup`.
    Group,
}

impl TrioWord {
    /// Returns the sentence, with its newline.
    pub fn text(self) -> &'static str
        ensures { result.now ≡ trio_sentence self }
    {
        match self {
            TrioWord::MoveOn => "Trio's `move_on_after` is `scope NAME after N { .. }` here\n",
            TrioWord::FailAfter => "Trio's `fail_after` is `scope NAME after N fail { .. }` here\n",
            TrioWord::Await => {
                "there is no `await` here: a step that waits is written as `sleep 1;`\n"
            }
            TrioWord::Async => {
                "there is no `async` here: a nursery is `nursery NAME { .. }`, a task `start NAME { .. }`\n"
            }
            TrioWord::OpenNursery => "Trio's `open_nursery` is `nursery NAME { .. }` here\n",
            TrioWord::StartSoon => {
                "Trio's `start_soon` is `start NAME { .. }` here, right inside a nursery\n"
            }
            TrioWord::SleepForever => "Trio's `sleep_forever` is `forever;` here\n",
            TrioWord::Event => {
                "Trio's `Event` is `event NAME { .. }` here, around the tasks that use it\n"
            }
            TrioWord::SetEvent => "Trio's `NAME.set()` is `set NAME;` here\n",
            TrioWord::WaitEvent => "Trio's `await NAME.wait()` is `wait NAME;` here\n",
        }
    }
}

impl OtherWord {
    /// Returns the sentence, with its newline.
    pub fn text(self) -> &'static str
        ensures { result.now ≡ other_sentence self }
    {
        match self {
            OtherWord::Condition => {
                "there are no conditions: only an exception or a cancellation changes the course of a job\n"
            }
            OtherWord::Loop => {
                "a loop is `repeat N { .. }`, in formats 2 and 3; a `raise` in it leaves it, with a `try` around it\n"
            }
            OtherWord::Exit => {
                "a loop or a block is left by `raise NAME;`, with `try { .. } except NAME { .. }` around it\n"
            }
            OtherWord::Catch => "a handler is `try { .. } except NAME { .. }` here\n",
            OtherWord::Task => "a task is `start NAME { .. }` here, right inside a nursery\n",
            OtherWord::With => {
                "leave out `with`: a block is `scope NAME after 5 { .. }` or `nursery NAME { .. }` here\n"
            }
            OtherWord::Timeout => "a timeout is `scope NAME after N fail { .. }` here\n",
            OtherWord::Defer => "`defer` is `try { .. } finally { .. }` here\n",
            OtherWord::Select => {
                "`select` is a nursery here which its first task cancels: `nursery first { start a { sleep 1; cancel first; } .. }`\n"
            }
            OtherWord::Group => "a group of tasks is `nursery NAME { .. }` here\n",
        }
    }
}

/// Returns what a job has in place of a token that is a word of a program on Trio or of another language or library, or `None` if
/// the token is no such word.
pub fn word_advice(shape: Option<Shape>) -> Option<Advice>
    ensures { result ≡ word_advice shape }
{
    let word = shape?.word()?;
    foreign_advice(word)
}

// Returns what a job has in place of such a word.
fn foreign_advice(word: Name) -> Option<Advice>
    ensures { result ≡ foreign_advice word }
{
    if let Some(advice) = trio_advice(word.bytes()) {
        return Some(advice);
    }
    if let Some(advice) = object_advice(word.bytes()) {
        return Some(advice);
    }
    other_advice(word.bytes())
}

// Returns what a job has in place of a word of a program on Trio.
fn trio_advice(word: &[u8]) -> Option<Advice>
    ensures { result ≡ trio_advice word.now }
{
    if word == b"move_on_after".as_slice() || word == b"move_on_at".as_slice() {
        Some(Advice::Trio(TrioWord::MoveOn))
    } else if word == b"fail_after".as_slice() || word == b"fail_at".as_slice() {
        Some(Advice::Trio(TrioWord::FailAfter))
    } else if word == b"await".as_slice() {
        Some(Advice::Trio(TrioWord::Await))
    } else if word == b"async".as_slice() {
        Some(Advice::Trio(TrioWord::Async))
    } else if word == b"open_nursery".as_slice() {
        Some(Advice::Trio(TrioWord::OpenNursery))
    } else if word == b"start_soon".as_slice() {
        Some(Advice::Trio(TrioWord::StartSoon))
    } else if word == b"sleep_forever".as_slice() {
        Some(Advice::Trio(TrioWord::SleepForever))
    } else if word == b"Event".as_slice() {
        Some(Advice::Trio(TrioWord::Event))
    } else {
        None
    }
}

// Returns what a job has in place of a word of another language or library.
fn other_advice(word: &[u8]) -> Option<Advice>
    ensures { result ≡ other_advice word.now }
{
    if is_condition(word) {
        Some(Advice::Other(OtherWord::Condition))
    } else if is_loop(word) {
        Some(Advice::Other(OtherWord::Loop))
    } else if is_exit(word) {
        Some(Advice::Other(OtherWord::Exit))
    } else if word == b"catch".as_slice() {
        Some(Advice::Other(OtherWord::Catch))
    } else if is_task(word) {
        Some(Advice::Other(OtherWord::Task))
    } else if word == b"with".as_slice() {
        Some(Advice::Other(OtherWord::With))
    } else if is_timeout(word) {
        Some(Advice::Other(OtherWord::Timeout))
    } else if word == b"defer".as_slice() {
        Some(Advice::Other(OtherWord::Defer))
    } else if word == b"select".as_slice() {
        Some(Advice::Other(OtherWord::Select))
    } else if is_group(word) {
        Some(Advice::Other(OtherWord::Group))
    } else {
        None
    }
}

// Returns whether a word begins or continues a condition.
fn is_condition(word: &[u8]) -> bool
    ensures { result ≡ is_condition word.now }
{
    word == b"if".as_slice() || word == b"else".as_slice() || word == b"elif".as_slice()
}

// Returns whether a word begins a loop.
fn is_loop(word: &[u8]) -> bool
    ensures { result ≡ is_loop word.now }
{
    word == b"while".as_slice() || word == b"for".as_slice() || word == b"loop".as_slice()
}

// Returns whether a word leaves a loop or a function, or begins the next pass.
fn is_exit(word: &[u8]) -> bool
    ensures { result ≡ is_exit word.now }
{
    word == b"break".as_slice() || word == b"continue".as_slice() || word == b"return".as_slice()
}

// Returns whether a word starts a task.
fn is_task(word: &[u8]) -> bool
    ensures { result ≡ is_task word.now }
{
    word == b"launch".as_slice()
        || word == b"go".as_slice()
        || word == b"spawn".as_slice()
        || word == b"create_task".as_slice()
}

// Returns whether a word begins a block with a timeout.
fn is_timeout(word: &[u8]) -> bool
    ensures { result ≡ is_timeout word.now }
{
    word == b"timeout".as_slice()
        || word == b"withTimeout".as_slice()
        || word == b"wait_for".as_slice()
}

// Returns whether a word is that of a group of tasks.
fn is_group(word: &[u8]) -> bool
    ensures { result ≡ is_group word.now }
{
    word == b"TaskGroup".as_slice()
        || word == b"create_task_group".as_slice()
        || word == b"coroutineScope".as_slice()
}
