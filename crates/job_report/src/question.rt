use job_runner::Settings;

/// What a command is asked: a job text, its input, and the settings of the run.
#[derive(Clone, Copy)]
pub struct Question<'a> {
    /// The job text.
    pub text: &'a [u8],
    /// The input. Each command wants one of at most 16,777,216 bytes (`MAX_INPUT`).
    pub input: &'a [u8],
    /// The number of workers, and the last tick at which the job may end.
    pub settings: Settings,
}
