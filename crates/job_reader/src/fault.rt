ghost use Rattle.std.specs.Prelude.{◌≡◌, Some, None, IfErr, OnOk};
ghost use Rattle.job_reader.specs.Kinds.{number_of, name_of};

use std::alloc::AllocError;
use thiserror::Error;

/// Why a job text was refused. The kinds are in the order in which they are looked for. Places are in bytes from the start
/// of the text.
#[derive(Clone, Copy, Debug, PartialEq, Eq)]
pub enum JobKind {
    /// The text has more than 65,536 bytes. The place is 65536.
    TooLong,
    /// A byte is above 127, or, in format 3, is neither printable nor a blank: space, tab, newline or carriage return. The
    /// place is the first such byte.
    NotAscii,
    /// The text begins with none of the lines `trio-job 1`, `trio-job 2` and `trio-job 3`. The place is 0.
    Version,
    /// Bytes from which no token can be read: a byte begins no token, a word has more than 32 bytes, a letter or `_`
    /// directly follows digits, or a string has no units, more than 64 units, a wrong unit or no end. The place is the first
    /// byte of what is no token.
    Token,
    /// A number has a leading zero or is out of its range: 1 to 64 after `over`, 1 to 1,000,000 after `pace`, 0 to 1,000
    /// after `repeat` in formats 2 and 3, in format 3 also 1 to 1,000,000 for the tokens of a `limiter` and 0 to 1,000,000 for
    /// the places of a `channel`, and otherwise 0 to 1,000,000,000. The place is its first digit.
    Number,
    /// The tokens are not a text of the grammar of the format. The place is the first token that no text of the grammar
    /// continues with, or the length of the text if the tokens end too early.
    Syntax,
    /// A block is at depth 33, where the block of the job itself is at depth 1. The place is its `{`.
    Depth,
    /// A job, scope, nursery, event, limiter, channel or started task has a name that was given before. The place is the later
    /// name.
    Twice,
    /// A `cancel` names no enclosing scope or nursery, a `set` or `wait` no enclosing event, an `acquire` no enclosing limiter,
    /// or a `send`, `receive` or `close` no enclosing channel. The place is the name in it.
    NotEnclosing,
    /// A name is a keyword or `Cancelled`, or `TooSlow` anywhere except after `except`. The place is that name. The keywords
    /// that format 3 added, such as `event`, may be names.
    Reserved,
    /// The job has more than 1,000,000 step instances, or in format 1 more than 100,000. The copies of a `start .. over` and
    /// the passes of a `repeat` are counted. The place is 0.
    TooLarge,
    /// Memory ran out. The place is 0.
    NoMemory,
}

impl JobKind {
    /// Returns the number of the kind, as it is printed after the `J` of a refusal.
    pub fn number(self) -> u64
        ensures { result ≡ number_of self }
    {
        match self {
            JobKind::TooLong => 1,
            JobKind::NotAscii => 2,
            JobKind::Version => 3,
            JobKind::Token => 4,
            JobKind::Number => 5,
            JobKind::Syntax => 6,
            JobKind::Depth => 7,
            JobKind::Twice => 8,
            JobKind::NotEnclosing => 9,
            JobKind::Reserved => 10,
            JobKind::TooLarge => 11,
            JobKind::NoMemory => 12,
        }
    }

    /// Returns the name of the kind.
    pub fn name(self) -> &'static str
        ensures { result.now ≡ name_of self }
    {
        match self {
            JobKind::TooLong => "TooLong",
            JobKind::NotAscii => "NotAscii",
            JobKind::Version => "Version",
            JobKind::Token => "Token",
            JobKind::Number => "Number",
            JobKind::Syntax => "Syntax",
            JobKind::Depth => "Depth",
            JobKind::Twice => "Twice",
            JobKind::NotEnclosing => "NotEnclosing",
            JobKind::Reserved => "Reserved",
            JobKind::TooLarge => "TooLarge",
            JobKind::NoMemory => "NoMemory",
        }
    }
}

/// A refusal of a job text.
#[derive(Clone, Copy, Debug, PartialEq, Eq, Error)]
#[error("refused J{number} {name} at {at}", number = .kind.number(), name = .kind.name())]
pub struct JobFault {
    /// The place of the fault, in bytes from the start of the text.
    pub at: usize,
    /// Why the text was refused.
    pub kind: JobKind,
}

impl From<AllocError> for JobFault {
    ghost use Rattle.job_reader.specs.Kinds.{no_memory};

    ghost from_gives = { λ _ e. e ≡ no_memory };

    fn from(_e: AllocError) -> JobFault {
        JobFault {
            at: 0,
            kind: JobKind::NoMemory,
        }
    }
}

// Returns a refusal of this kind at the place that a check found, or `Ok` if it found none.
pub(crate) fn refuse_at(found: Option<usize>, kind: JobKind) -> Result<(), JobFault>
    ensures ok { OnOk result (found ≡ None) }
    ensures err { IfErr result (λ fault. (found ≡ Some fault.at) × (fault.kind ≡ kind)) }
{
    match found {
        Some(at) => Err(JobFault { at, kind }),
        None => Ok(()),
    }
}
