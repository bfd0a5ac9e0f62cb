ghost use Rattle.std.specs.Prelude.{◌≡◌};
ghost use Rattle.commands.specs.Statuses.{faults_status_of, lints_status_of, races_status_of, sweep_status_of};

use job_reader::JobFault;
use trials::Missing;

/// What `faults` wrote.
#[derive(Debug, Drop)]
pub enum FaultsVerdict {
    /// The outcome of the job with each fault.
    Lines {
        /// The lines that are denied, as they are in the text table. Empty if there are none.
        denied: Vec<u8>,
    },
    /// The refusal of the job text.
    JobRefused(JobFault),
}

impl FaultsVerdict {
    /// Returns the exit status of the program that wrote this: 0 if no line is denied, 1 if a line is, and 2 if the job text
    /// was refused.
    pub fn status(&self) -> u8
        ensures { result ≡ faults_status_of self.now }
    {
        match self {
            FaultsVerdict::Lines { denied } => { if denied.is_empty() { 0 } else { 1 } }
            FaultsVerdict::JobRefused(_) => 2,
        }
    }
}

/// What `races` wrote.
#[derive(Debug, Drop)]
pub enum RacesVerdict {
    /// What each hair of each place changes.
    Lines {
        /// The lines that are races, as they are in the text table, if races are denied. Empty if there are none, and if races
        /// are not denied.
        denied: Vec<u8>,
    },
    /// The refusal of the job text.
    JobRefused(JobFault),
    /// The limit: the job does not end by it, so there is no outcome that could depend on a hair.
    Limit,
    /// Nothing: some `sleep`, `after` or `at` of the job text has more than 100,000,000 ticks, which cannot be made finer.
    NoFinerTicks,
}

impl RacesVerdict {
    /// Returns the exit status of the program that wrote this: 0 if no race is denied, 1 if one is, 2 if the job text was
    /// refused or cannot have finer ticks, and 3 if the job does not end by the limit.
    pub fn status(&self) -> u8
        ensures { result ≡ races_status_of self.now }
    {
        match self {
            RacesVerdict::Lines { denied } => { if denied.is_empty() { 0 } else { 1 } }
            RacesVerdict::JobRefused(_) => 2,
            RacesVerdict::Limit => 3,
            RacesVerdict::NoFinerTicks => 2,
        }
    }
}

/// What `sweep` wrote.
#[derive(Drop)]
pub enum SweepVerdict {
    /// The outcome of the job for each value.
    Lines,
    /// The refusal of the job text.
    JobRefused(JobFault),
    /// Nothing: the text does not have the number that is meant.
    NoTarget(Missing),
}

impl SweepVerdict {
    /// Returns the exit status of the program that wrote this: 0, or 2 if the job text was refused or does not have the number
    /// that is meant.
    pub fn status(&self) -> u8
        ensures { result ≡ sweep_status_of self.now }
    {
        match self {
            SweepVerdict::Lines => 0,
            SweepVerdict::JobRefused(_) | SweepVerdict::NoTarget(_) => 2,
        }
    }
}

/// What `lints_json` wrote.
#[derive(Debug, Drop)]
pub enum LintsVerdict {
    /// The document of a job text without warnings.
    Clean,
    /// The document of a job text with at least one warning.
    Warned,
    /// The document of the refusal of the job text.
    JobRefused(JobFault),
}

impl LintsVerdict {
    /// Returns the exit status of the program: 0 if there is no warning, 1 if there is at least one, and 2 if the job text was
    /// refused.
    pub fn status(&self) -> u8
        ensures { result ≡ lints_status_of self.now }
    {
        match self {
            LintsVerdict::Clean => 0,
            LintsVerdict::Warned => 1,
            LintsVerdict::JobRefused(_) => 2,
        }
    }
}
