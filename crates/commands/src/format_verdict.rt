ghost use Rattle.std.specs.Prelude.{◌≡◌};
ghost use Rattle.commands.specs.FormatStatuses.{status_of, check_status_of};

use job_reader::JobFault;

/// The result of formatting a text.
#[derive(Clone, Copy, Debug, PartialEq, Eq)]
pub enum FormatVerdict {
    /// The formatted text was written.
    Formatted,
    /// The text is refused. The line of its refusal was written.
    JobRefused(JobFault),
    /// The formatted text would have this number of bytes, more than a job text may have. Nothing was written.
    TooLong(usize),
}

impl FormatVerdict {
    /// Returns the exit status of the program: 0 for a formatted text, and otherwise 2.
    pub fn status(self) -> u8
        ensures { result ≡ status_of self }
    {
        match self {
            FormatVerdict::Formatted => 0,
            FormatVerdict::JobRefused(_) | FormatVerdict::TooLong(_) => 2,
        }
    }
}

/// Whether a text is formatted.
#[derive(Clone, Copy, Debug, PartialEq, Eq)]
pub enum FormatCheck {
    /// It is its own formatted text.
    Same,
    /// The first place at which it differs from its formatted text, in bytes from the start of the text. If the formatted text
    /// only continues after the end of the text, the place is the length of the text.
    Differs(usize),
    /// The text is refused.
    JobRefused(JobFault),
    /// The formatted text would have this number of bytes, more than a job text may have.
    TooLong(usize),
}

impl FormatCheck {
    /// Returns the exit status of the program: 0 for a text that is formatted, 1 for one that is not, and otherwise 2.
    pub fn status(self) -> u8
        ensures { result ≡ check_status_of self }
    {
        match self {
            FormatCheck::Same => 0,
            FormatCheck::Differs(_) => 1,
            FormatCheck::JobRefused(_) | FormatCheck::TooLong(_) => 2,
        }
    }
}
