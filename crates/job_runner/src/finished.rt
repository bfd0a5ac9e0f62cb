use job_meaning::GrantTable;
use job_tree::Name;
use task_machine::ScopeFrom;
use task_table::{Outcome, Record};

/// A finished run: the records of the job's meaning.
#[derive(Drop)]
pub struct Run<'a> {
    name: Name,
    records: Vec<Record<'a>>,
    cancelled_from: Vec<ScopeFrom>,
    grants: GrantTable<'a>,
    turns: u64,
}

impl<'a> Run<'a> {
    ghost use Rattle.std.specs.Prelude.{◌≡◌};
    ghost use Rattle.job_runner.specs.Runs.{name_of, records_in, rows_of, cancelled_from_in, granted_in, turns_of, root_is_well, root_end};

    // A run of these parts.
    pub(crate) fn new(
        name: Name,
        records: Vec<Record<'a>>,
        cancelled_from: Vec<ScopeFrom>,
        grants: GrantTable<'a>,
        turns: u64,
    ) -> Run<'a>
        ensures name { name_of result ≡ name }
        ensures records { records_in result ≡ records.entry.items }
        ensures cancelled_from { cancelled_from_in result ≡ cancelled_from.items }
        ensures grants { granted_in result ≡ grants.entry }
        ensures turns { turns_of result ≡ turns }
    {
        Run {
            name,
            records,
            cancelled_from,
            grants,
            turns,
        }
    }

    /// Returns the job's name.
    pub fn name(&self) -> Name
        ensures { result ≡ name_of self.now }
    {
        self.name
    }

    /// Returns the records: the root's, and each followed by those of its descendants in the order of their starts.
    pub fn records(&self) -> &[Record<'a>]
        ensures { result.now ≡ records_in self.now }
    {
        self.records.as_slice()
    }

    /// Returns whether the root ended without an exception.
    pub fn is_well(&self) -> bool
        ensures { result ≡ root_is_well (rows_of self.now) }
    {
        match self.records.as_slice().split_first() {
            Some((root, _)) => matches!(root.outcome, Outcome::Done),
            None => true,
        }
    }

    /// Returns the tick in which the root ended.
    pub fn end(&self) -> u64
        ensures { result ≡ root_end (rows_of self.now) }
    {
        match self.records.as_slice().split_first() {
            Some((root, _)) => root.to_tick,
            None => 0,
        }
    }

    /// Returns the scopes and nurseries with the tick from which each was cancelled, in the order of the
    /// records and of entering.
    pub fn cancelled_from(&self) -> &[ScopeFrom]
        ensures { result.now ≡ cancelled_from_in self.now }
    {
        self.cancelled_from.as_slice()
    }

    /// Returns the same as `cancelled_from`, and what the limiters and channels granted, without the records.
    pub fn into_tables(self) -> (Vec<ScopeFrom>, GrantTable<'a>)
        ensures cancelled_from { result.0.items ≡ cancelled_from_in self.entry }
        ensures grants { result.1 ≡ granted_in self.entry }
    {
        let Run {
            cancelled_from,
            grants,
            ..
        } = self;
        (cancelled_from, grants)
    }

    /// Returns the number of turns of all tasks.
    pub fn turns(&self) -> u64
        ensures { result ≡ turns_of self.now }
    {
        self.turns
    }
}
