ghost use Rattle.std.specs.Prelude.{◌≡◌, ◌≤◌};
ghost use Rattle.job_meaning.specs.Clocks.{start_of};
ghost use Rattle.job_runner.specs.Limits.{last_tick, last_of};

use job_meaning::{Clock, FAR, LAST_TICK, ROUNDS_IN_A_TICK};

/// The maximum number of workers of a run.
pub const MAX_WORKERS: usize = 64;

/// The maximum limit of a run, in ticks.
pub const MAX_LIMIT: u64 = 4_294_967_295;

// The last tick to which a run may go: no job ends later.
pub(crate) fn last_tick(clock: Clock) -> u64
    ensures { result ≡ last_tick clock }
{
    match clock {
        Clock::ByTicks => LAST_TICK,
        Clock::ByRounds => FAR,
    }
}

// The number of moments of a tick, which is the moment at which tick 1 starts.
pub(crate) fn moments_in_a_tick(clock: Clock) -> u64
    ensures { result ≡ start_of clock 1 }
{
    match clock {
        Clock::ByTicks => 1,
        Clock::ByRounds => ROUNDS_IN_A_TICK,
    }
}

// The last moment of a tick.
pub(crate) fn last_of(clock: Clock, tick: u64) -> u64
    requires { tick ≤ last_tick clock }
    ensures { result ≡ last_of clock tick }
{
    match clock {
        Clock::ByTicks => tick,
        Clock::ByRounds => tick * ROUNDS_IN_A_TICK + (ROUNDS_IN_A_TICK - 1),
    }
}
