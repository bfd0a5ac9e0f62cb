ghost use Rattle.std.specs.Prelude.{◌≡◌};
ghost use Rattle.job_syntax.specs.Keywords.{spelling_of, may_be_name, is_kept, keyword_among, keyword_of, keywords};

use job_tree::Name;

/// The words that have a meaning of their own in a job text. None of them may be the name of a job, task, scope, nursery,
/// event, limiter, channel or exception, except those that format 3 added: `event`, `set`, `wait`, `limiter`, `acquire`,
/// `channel`, `send`, `receive` and `close`.
#[derive(Clone, Copy, PartialEq, Eq)]
pub enum Keyword {
    /// `job`. Begins a job.
    Job,
    /// `sleep`. Sleeps for a number of ticks.
    Sleep,
    /// `checkpoint`. Checks whether the task is cancelled.
    Checkpoint,
    /// `forever`. Sleeps until the task is cancelled.
    Forever,
    /// `pace`. Sleeps for a time that depends on the number of lines.
    Pace,
    /// `find`. Reports the lines that contain a string.
    Find,
    /// `head`. Reports the first lines.
    Head,
    /// `longest`. Reports the first of the longest lines.
    Longest,
    /// `need`. Reports a line, or raises an exception.
    Need,
    /// `raise`. Raises an exception.
    Raise,
    /// `cancel`. Cancels a scope or nursery.
    Cancel,
    /// `scope`. Opens a cancel scope.
    Scope,
    /// `after`. A deadline, in ticks after the scope or nursery was entered.
    After,
    /// `at`. A deadline, at a tick of the job.
    At,
    /// `shield`. Hides the cancellations of enclosing scopes.
    Shield,
    /// `fail`. Raises `TooSlow` if the scope caught a cancellation.
    Fail,
    /// `nursery`. Opens a nursery.
    Nursery,
    /// `start`. Starts a task.
    Start,
    /// `over`. Starts one task for each cut of the lines.
    Over,
    /// `try`. A block with a handler or a cleanup.
    Try,
    /// `except`. A handler.
    Except,
    /// `finally`. A cleanup.
    Finally,
    /// `repeat`. Runs a block several times. In format 1 it begins no step.
    Repeat,
    /// `event`. Opens an event. In formats 1 and 2 it begins no step. It may be a name.
    Event,
    /// `set`. Sets an event. In formats 1 and 2 it begins no step. It may be a name.
    Set,
    /// `wait`. Waits for an event. In formats 1 and 2 it begins no step. It may be a name.
    Wait,
    /// `limiter`. Opens a limiter. In formats 1 and 2 it begins no step. It may be a name.
    Limiter,
    /// `acquire`. Asks for a token of a limiter. In formats 1 and 2 it begins no step. It may be a name.
    Acquire,
    /// `channel`. Opens a channel. In formats 1 and 2 it begins no step. It may be a name.
    Channel,
    /// `send`. Sends to a channel. In formats 1 and 2 it begins no step. It may be a name.
    Send,
    /// `receive`. Receives from a channel. In formats 1 and 2 it begins no step. It may be a name.
    Receive,
    /// `close`. Closes a channel. In formats 1 and 2 it begins no step. It may be a name.
    Close,
}

impl Keyword {
    /// Returns the bytes of the keyword.
    pub fn bytes(self) -> &'static [u8]
        ensures { result.now ≡ spelling_of self }
    {
        match self {
            Keyword::Job => b"job",
            Keyword::Sleep => b"sleep",
            Keyword::Checkpoint => b"checkpoint",
            Keyword::Forever => b"forever",
            Keyword::Pace => b"pace",
            Keyword::Find => b"find",
            Keyword::Head => b"head",
            Keyword::Longest => b"longest",
            Keyword::Need => b"need",
            Keyword::Raise => b"raise",
            Keyword::Cancel => b"cancel",
            Keyword::Scope => b"scope",
            Keyword::After => b"after",
            Keyword::At => b"at",
            Keyword::Shield => b"shield",
            Keyword::Fail => b"fail",
            Keyword::Nursery => b"nursery",
            Keyword::Start => b"start",
            Keyword::Over => b"over",
            Keyword::Try => b"try",
            Keyword::Except => b"except",
            Keyword::Finally => b"finally",
            Keyword::Repeat => b"repeat",
            Keyword::Event => b"event",
            Keyword::Set => b"set",
            Keyword::Wait => b"wait",
            Keyword::Limiter => b"limiter",
            Keyword::Acquire => b"acquire",
            Keyword::Channel => b"channel",
            Keyword::Send => b"send",
            Keyword::Receive => b"receive",
            Keyword::Close => b"close",
        }
    }

    /// Returns whether the keyword may also be a name. It may if format 3 added it: so each job of format 2 is also a job of
    /// format 3, whatever its names are.
    pub fn may_be_name(self) -> bool
        ensures { result ≡ may_be_name self }
    {
        match self {
            Keyword::Event => true,
            Keyword::Set => true,
            Keyword::Wait => true,
            Keyword::Limiter => true,
            Keyword::Acquire => true,
            Keyword::Channel => true,
            Keyword::Send => true,
            Keyword::Receive => true,
            Keyword::Close => true,
            _ => false,
        }
    }

    /// Returns the keyword with the spelling of this word, or `None` if the word is not a keyword.
    #[tactic(auto, unfolding(crate::specs::Keywords::keyword_of))]
    pub fn of(word: Name) -> Option<Keyword>
        ensures { result ≡ keyword_of word }
    {
        let word = word.bytes();
        keyword_among(beginning_alike(word), word)
    }
}

/// Returns whether this is a keyword that may not be a name.
pub fn is_kept(keyword: Option<Keyword>) -> bool
    ensures { result ≡ is_kept keyword }
{
    match keyword {
        Some(keyword) => !keyword.may_be_name(),
        None => false,
    }
}

// Returns the keywords that begin with the first byte of this word: those that it may be.
fn beginning_alike(word: &[u8]) -> &'static [Keyword]
    ensures { keyword_among result.now word.now ≡ keyword_among keywords word.now }
{
    match word.first() {
        Some(b'a') => &[Keyword::After, Keyword::At, Keyword::Acquire],
        Some(b'c') => &[
            Keyword::Checkpoint,
            Keyword::Cancel,
            Keyword::Channel,
            Keyword::Close,
        ],
        Some(b'e') => &[Keyword::Except, Keyword::Event],
        Some(b'f') => &[
            Keyword::Forever,
            Keyword::Find,
            Keyword::Fail,
            Keyword::Finally,
        ],
        Some(b'h') => &[Keyword::Head],
        Some(b'j') => &[Keyword::Job],
        Some(b'l') => &[Keyword::Longest, Keyword::Limiter],
        Some(b'n') => &[Keyword::Need, Keyword::Nursery],
        Some(b'o') => &[Keyword::Over],
        Some(b'p') => &[Keyword::Pace],
        Some(b'r') => &[Keyword::Raise, Keyword::Repeat, Keyword::Receive],
        Some(b's') => &[
            Keyword::Sleep,
            Keyword::Scope,
            Keyword::Shield,
            Keyword::Start,
            Keyword::Set,
            Keyword::Send,
        ],
        Some(b't') => &[Keyword::Try],
        Some(b'w') => &[Keyword::Wait],
        _ => &[],
    }
}

// Returns the first of these keywords that has this spelling.
fn keyword_among(keywords: &[Keyword], word: &[u8]) -> Option<Keyword>
    ensures { result ≡ keyword_among keywords.now word.now }
{
    for keyword in keywords {
        if keyword.bytes() == word {
            return Some(*keyword);
        }
    }
    None
}
