ghost use Rattle.std.specs.Prelude.{◌≡◌};
ghost use Rattle.job_story.specs.Held.{what_of};
ghost use Rattle.job_story.specs.Limit.{is_start, is_end};

use crate::event::What;

impl What {
    /// Returns whether this is the start of a task.
    pub fn is_start(&self) -> bool
        ensures { result ≡ is_start (what_of self.now) }
    {
        match self {
            What::Starts { .. } => true,
            What::Happens(_) | What::Ends { .. } => false,
        }
    }

    /// Returns whether this is the end of a task.
    pub fn is_end(&self) -> bool
        ensures { result ≡ is_end (what_of self.now) }
    {
        match self {
            What::Ends { .. } => true,
            What::Starts { .. } | What::Happens(_) => false,
        }
    }
}
