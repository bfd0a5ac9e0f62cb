ghost use Rattle.std.specs.Prelude.{◌≡◌, ◌+◌, ◌<◌, ◌≤◌, ◌^◌};
ghost use Rattle.std.specs.Option.{ForSome};
ghost use Rattle.job_tree.specs.InRange.{IsInRangeDeadline};
ghost use Rattle.job_meaning.specs.Clocks.{clock_of, tick_of, start_of, a_round_after, wakes_at, due};

use job_tree::{Deadline, Format};

/// The number of moments of a tick where a tick has rounds: more rounds than a tick of any job has.
pub const ROUNDS_IN_A_TICK: u64 = 2_097_152;

/// A tick that no limit reaches, at which `forever` ends.
pub const FAR: u64 = 1_099_511_627_776;

/// How time is counted, which the format of a job determines.
#[derive(Clone, Copy, Debug, PartialEq, Eq)]
pub enum Clock {
    /// Formats 1 and 2: a moment is a tick.
    ByTicks,
    /// Format 3: a tick has rounds, which are passes of Trio's run loop. A moment is a round of a tick, and its number
    /// is the tick times `ROUNDS_IN_A_TICK` plus the round.
    ByRounds,
}

impl Clock {
    /// Returns the clock of a job of this format.
    pub fn of(format: Format) -> Clock
        ensures { result ≡ clock_of format }
    {
        match format {
            Format::One => Clock::ByTicks,
            Format::Two => Clock::ByTicks,
            Format::Three => Clock::ByRounds,
        }
    }

    /// Returns the tick of a moment.
    pub fn tick_of(self, moment: u64) -> u64
        ensures { result ≡ tick_of self moment }
    {
        match self {
            Clock::ByTicks => moment,
            Clock::ByRounds => moment / ROUNDS_IN_A_TICK,
        }
    }

    /// Returns the first moment of a tick, in which deadlines and timers act.
    pub fn start_of(self, tick: u64) -> u64
        requires { start_of self tick < 2 ^ 64 }
        ensures { result ≡ start_of self tick }
    {
        match self {
            Clock::ByTicks => tick,
            Clock::ByRounds => tick * ROUNDS_IN_A_TICK,
        }
    }

    /// Returns the moment after a round for the others: a child begins there, a checkpoint ends there, and a nursery
    /// is left there. Where time is counted by ticks, it is the same moment.
    pub fn a_round_after(self, moment: u64) -> u64
        requires { moment < 2 ^ 63 }
        ensures { result ≡ a_round_after self moment }
    {
        match self {
            Clock::ByTicks => moment,
            Clock::ByRounds => moment + 1,
        }
    }

    /// Returns the moment in which a sleep of `ticks` ticks ends that begins in `moment`. A sleep of none is a
    /// checkpoint. By rounds, no sleep lasts beyond the start of tick `FAR`.
    pub fn wakes_at(self, ticks: u64, moment: u64) -> u64
        requires ticks { ticks ≤ 2 ^ 40 }
        requires room { moment < 2 ^ 62 + ROUNDS_IN_A_TICK }
        ensures wakes { result ≡ wakes_at self ticks moment }
        ensures bounded { result < 2 ^ 63 }
    {
        match self {
            Clock::ByTicks => moment + ticks,
            Clock::ByRounds => match ticks {
                0 => moment + 1,
                _ => ((moment / ROUNDS_IN_A_TICK + ticks).min(FAR) * ROUNDS_IN_A_TICK).max(
                    moment + 1,
                ),
            },
        }
    }

    /// Returns the moment of a deadline for a block that is entered in `moment`, or `None` where it has none.
    pub fn due(self, deadline: Deadline, moment: u64) -> Option<u64>
        requires in_range { IsInRangeDeadline deadline }
        requires room { moment < 2 ^ 62 + ROUNDS_IN_A_TICK }
        ensures due { result ≡ due self deadline moment }
        ensures bounded { ForSome result (λ until. until < 2 ^ 63) }
    {
        match deadline {
            Deadline::Never => None,
            Deadline::After(ticks) => Some(self.start_of(self.tick_of(moment) + ticks)),
            Deadline::At(tick) => Some(self.start_of(tick)),
        }
    }
}
