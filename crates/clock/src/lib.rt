//! Timers and jumps; tasks that sleep in cancel scopes, found by the tick from which they see a cancellation; tasks that wait
//! for events.
//!
//! Keys with their ticks, found both ways: the tick of a key, and the first tick with its key.
//!
//! Each key has at most one tick. A caller sets, changes or removes the tick of a key, and asks at any time for the earliest
//! tick of all. Each call takes logarithmic time in the number of keys that have a tick. Keys should be small numbers, such as
//! indices of a table: the queue has an entry for each key up to the maximum key that was given a tick, and a call with a
//! greater key may also copy that table, once for each doubling.
//!
//! The layer promises a map from keys to ticks, and does not say how it is stored.
//!
//! The autojump clock of Trio's `trio.testing.MockClock` (rate 0, autojump threshold 0), in whole ticks.
//!
//! The tick stays the same while a task can run. A task that sleeps has a timer. Once every task is blocked, the scheduler lets
//! the clock jump to the earliest timer or cancellation, and wakes the tasks that are due, the least id first. Unlike Trio's
//! clock it has a limit, beyond which it does not jump.
//!
//! The layer promises a map from tasks to due ticks, and does not say how it is stored.
//!
//! Tasks that sleep in cancel scopes, found by the tick from which they see a cancellation, and tasks that wait for events,
//! found by the event.
//!
//! A scheduler records in `Sleepers` in which scope each task falls asleep, and the effective deadline (`sight`) of each scope
//! in which a task sleeps: the tick from which a task in it sees a cancellation. `Sleepers` answers what a jump of the clock
//! needs: the earliest tick from which a sleeper sees a cancellation and, once that tick has come, the sleepers that do, one
//! after another. A call takes logarithmic time in the number of scopes that have such a tick, however many tasks sleep. The
//! tables grow once for the maximum key.
//!
//! `EventWaiters` holds for which event each task waits, and answers which tasks wait for one.
//!
//! The layer promises a map from tasks to scopes and one from scopes to ticks, and a map from tasks to events, and does not say
//! how they are stored.
#![tactic(auto)]

mod clock;
mod event_waiters;
mod key_list;
mod queue;
mod sleep_slots;
mod sleepers;
mod task_id;
mod timers;

pub use clock::{Jump, MockClock};
pub use event_waiters::EventWaiters;
pub use queue::TickQueue;
pub use sleepers::Sleepers;
pub use task_id::TaskId;
