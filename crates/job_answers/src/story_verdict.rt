ghost use Rattle.std.specs.Prelude.{◌≡◌};
ghost use Rattle.job_answers.specs.StoryStatuses.{story_status_of};

use job_reader::JobFault;

/// What `explain` wrote.
#[derive(Debug, Drop)]
pub enum StoryVerdict {
    /// The story of a job whose root task ended without an exception.
    Done,
    /// The story of a job whose root task ended with an exception.
    Raised,
    /// The refusal of the job text.
    JobRefused(JobFault),
    /// The story up to the limit of a job that ends later.
    Limit,
    /// Nothing: no task of the story has the label that was asked for.
    NoTask {
        /// The text of the label of a task of the story that is nearest to the one asked for.
        nearest: Vec<u8>,
    },
}

impl StoryVerdict {
    /// Returns the exit status of the program: 0 if the job ended well, 1 if it ended with an exception, 2 if its text was
    /// refused or no task has the label, and 3 if it ends later than the limit.
    pub fn status(&self) -> u8
        ensures { result ≡ story_status_of self.now }
    {
        match self {
            StoryVerdict::Done => 0,
            StoryVerdict::Raised => 1,
            StoryVerdict::JobRefused(_) | StoryVerdict::NoTask { .. } => 2,
            StoryVerdict::Limit => 3,
        }
    }
}
