//! The laws of the definitions. Each function does nothing: its contract is the law.

ghost use Rattle.job_meaning.specs.Laws.{
  CancelledIsSeen,
  EndsByTheLastTick,
  FollowingIsMeaning,
  FollowingSettledIsMeaning,
  LabelsAreGivenOnce,
  LoweringShows,
  NoneReachesTheRoot,
  NothingBeforeItsCause,
  OneTableIsSettled,
  StaysSeen,
  TableIsSettled,
  UpgradingKeepsTheMeaning,
};

/// A cancellation that is seen at a tick is seen at every later tick, and if the tick from which a scope is cancelled is made
/// earlier, whatever was seen is still seen.
pub fn law_monotone_sight()
    ensures later { StaysSeen }
    ensures lowered { LoweringShows }
{}

/// If a walk by ticks ends with an exception that holds a `Cancelled`, a cancellation is seen on its stack in that tick. No scope
/// encloses a job, so no `Cancelled` leaves a job of format 1 or 2. By rounds this is false for an arbitrary table; the
/// definition has an example.
pub fn law_root()
    ensures walks { CancelledIsSeen }
    ensures jobs { NoneReachesTheRoot }
{}

/// A cancellation changes nothing before its moment, and what a limiter or channel grants changes nothing before it is granted:
/// if two stacks differ only in moments of cancellation that are at least c, and the same is granted before c, the walks of a
/// block on them have the same starts, entries, entered labels, signs, acts on limiters and channels, and ends in all moments
/// before c. Of who asks a limiter or channel it is known before c whether it has left the queue by then.
pub fn law_causality()
    ensures { NothingBeforeItsCause }
{}

/// The meaning walks each block twice, the first time as if no sign were made. Its table contains, for each scope and nursery,
/// the tick from which it is cancelled, and one walk that reads the table has the same result. So the table is that of its own
/// following. This requires that each name is given once, as in each job that was read: if two scopes had one name and only the
/// first were cancelled, a table could not distinguish them.
///
/// A second table contains what limiters and channels grant to each task that asks them in a moment. That of the meaning is what
/// is granted by the acts of the walk that reads it. This requires that the numbers of the job are in their ranges and that the
/// input is no longer than it may be, so that the job ends by the last tick.
///
/// These are the only such tables. Following any settled pair of tables is the meaning, and any two settled pairs agree on every
/// label and on every grant. So an implementation that follows settled tables does exactly what the meaning says.
pub fn law_settled_table()
    ensures follow { FollowingIsMeaning }
    ensures settled { TableIsSettled }
    ensures all { FollowingSettledIsMeaning }
    ensures one { OneTableIsSettled }
{}

/// Each label of a run is given once: to one scope, one nursery, one event, one limiter, one channel or one task, including the
/// root. This holds for the meaning and for following any tables, if each name is given once.
pub fn law_labels()
    ensures { LabelsAreGivenOnce }
{}

/// A job of format 1 or 2 and the same job in format 2 mean the same over every input: the format determines how a text is read,
/// and nothing of what the job does. Format 3 counts time by rounds, so a job may mean something else there.
pub fn law_upgrade()
    ensures { UpgradingKeepsTheMeaning }
{}

/// Every job whose numbers are in their ranges ends by the last tick: `forever` sleeps until tick two to the 40, and a job has at
/// most a million step instances. A wait for a limiter or channel ends when `forever` does, or else in the next moment. So a run that
/// has no other limit always ends, and its tables are complete.
pub fn law_end()
    ensures { EndsByTheLastTick }
{}
