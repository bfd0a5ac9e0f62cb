//! `job_meaning`: ticks of moments and moments of ticks, and when waits end, in both clocks.

use job_meaning::{Clock, FAR, ROUNDS_IN_A_TICK};
use job_tree::{Deadline, Format};

#[test]
fn formats_1_and_2_are_counted_by_ticks_and_format_3_by_rounds(rt: HostRuntime) {
    assert!(rt; Clock::of(Format::One) == Clock::ByTicks);
    assert!(rt; Clock::of(Format::Two) == Clock::ByTicks);
    assert!(rt; Clock::of(Format::Three) == Clock::ByRounds);
}

#[test]
fn by_ticks_a_moment_is_a_tick(rt: HostRuntime) {
    let clock = Clock::ByTicks;
    assert!(rt; clock.tick_of(7) == 7 && clock.start_of(7) == 7 && clock.a_round_after(7) == 7);
    assert!(rt; clock.wakes_at(0, 7) == 7 && clock.wakes_at(3, 7) == 10);
    assert!(rt; clock.due(Deadline::Never, 7).is_none());
    assert!(rt; clock.due(Deadline::After(3), 7) == Some(10));
    assert!(rt; clock.due(Deadline::At(3), 7) == Some(3));
}

#[test]
fn by_rounds_a_moment_is_a_round_of_a_tick(rt: HostRuntime) {
    let clock = Clock::ByRounds;
    let moment = 4 * ROUNDS_IN_A_TICK + 2;
    assert!(rt; clock.tick_of(moment) == 4 && clock.start_of(4) == 4 * ROUNDS_IN_A_TICK);
    assert!(rt; clock.a_round_after(moment) == moment + 1);
    assert!(rt; clock.wakes_at(0, moment) == moment + 1);
    assert!(rt; clock.wakes_at(3, moment) == 7 * ROUNDS_IN_A_TICK);
    assert!(rt; clock.due(Deadline::Never, moment).is_none());
    assert!(rt; clock.due(Deadline::After(3), moment) == Some(7 * ROUNDS_IN_A_TICK));
    assert!(rt; clock.due(Deadline::At(3), moment) == Some(3 * ROUNDS_IN_A_TICK));
}

#[test]
fn by_rounds_no_sleep_lasts_beyond_far(rt: HostRuntime) {
    let clock = Clock::ByRounds;
    assert!(rt; clock.wakes_at(FAR, 4 * ROUNDS_IN_A_TICK) == FAR * ROUNDS_IN_A_TICK);
    assert!(rt; clock.wakes_at(3, FAR * ROUNDS_IN_A_TICK + 5) == FAR * ROUNDS_IN_A_TICK + 6);
}
