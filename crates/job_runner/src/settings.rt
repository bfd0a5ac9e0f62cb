ghost use Rattle.std.specs.Prelude.{◌≡◌, ◌≤◌, ◌↔◌, IsSome, IfSome};
ghost use Rattle.job_runner.specs.declared.limits.TheConstants.{MAX_WORKERS, MAX_LIMIT};

use crate::limits::{MAX_LIMIT, MAX_WORKERS};
use std::marker::Model;

/// How a job is run: the number of workers, 1 to 64, and the limit, the last tick at which the job may end.
#[derive(Clone, Copy)]
pub struct Settings {
    workers: usize,
    limit: u64,
}

impl Model for Settings {
    ghost use Rattle.std.specs.Prelude.{◌≤◌};
    ghost use Rattle.job_runner.specs.Settings.{Chosen};
    ghost use Rattle.job_runner.specs.declared.limits.TheConstants.{MAX_WORKERS, MAX_LIMIT};

    ghost Value = { Chosen };

    ghost view = { λ s. record { workers = s.workers; limit = s.limit } };

    ghost invariant = { λ s. (1 ≤ s.workers) × (s.workers ≤ MAX_WORKERS) × (s.limit ≤ MAX_LIMIT) };

    ghost inverse = { λ c. record { workers = c.workers; limit = c.limit } };
}

impl Settings {
    /// Returns settings with that number of workers and that limit, or `None` unless there are 1 to 64 workers and
    /// the limit is at most 4,294,967,295.
    pub fn new(workers: usize, limit: u64) -> Option<Settings>
        ensures fits { IsSome result ↔ ((1 ≤ workers) × (workers ≤ MAX_WORKERS) × (limit ≤ MAX_LIMIT)) }
        ensures value { IfSome result (λ settings. settings ≡ record { workers = workers; limit = limit }) }
    {
        if workers < 1 || workers > MAX_WORKERS || limit > MAX_LIMIT {
            return None;
        }
        Some(Settings { workers, limit })
    }

    /// Returns the number of workers.
    pub fn workers(self) -> usize
        ensures value { result ≡ self.workers }
        ensures some { 1 ≤ result }
        ensures few { result ≤ MAX_WORKERS }
    {
        self.workers
    }

    /// Returns the limit, in ticks.
    pub fn limit(self) -> u64
        ensures value { result ≡ self.limit }
        ensures within { result ≤ MAX_LIMIT }
    {
        self.limit
    }
}
