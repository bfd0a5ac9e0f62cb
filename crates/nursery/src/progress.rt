use job_answers::Gate;
use std::sync::atomic::{AtomicU64, Ordering};
use std::time::{Clock, Instant};

/// For how long a command works before its progress is shown, in milliseconds.
const BEFORE_SHOWN: u64 = 1_000;

/// The milliseconds between two lines of progress.
const BETWEEN: u64 = 100;

/// Returns to the start of a terminal's line and clears it.
const CLEAR: &str = "\r\x1b[K";

/// Shows on standard error how many runs are done: from the first second on, and only if that is a terminal. Each line is written
/// over the one before it, and so is what is written next on the same terminal. It is shared by threads.
#[derive(Drop)]
pub(crate) struct Progress<'r, R> {
    rt: &'r R,
    // When the work began, or `None` if nothing is to be shown.
    start: Option<Instant>,
    // How many runs are done.
    done: AtomicU64,
    // When the next line is shown, in milliseconds from the start.
    next: AtomicU64,
}

impl<'r, R: Clock + Eprint> Progress<'r, R> {
    // Returns the progress of work that begins now, which is shown only at a terminal.
    pub(crate) fn new(rt: &'r R, at_terminal: bool) -> Progress<'r, R> {
        let start = if at_terminal {
            Instant::now(rt).ok()
        } else {
            None
        };
        Progress {
            rt,
            start,
            done: AtomicU64::new(0),
            next: AtomicU64::new(BEFORE_SHOWN),
        }
    }

    // Clears the line of progress, if one is shown.
    pub(crate) fn clear(&self) {
        if self.next.load(Ordering::SeqCst) != BEFORE_SHOWN {
            let _ = self.rt.eprint(CLEAR);
        }
    }

    // Shows how many runs are done, if it is time for that and no other thread does.
    fn show(&self, done: u64) {
        let Some(start) = self.start else {
            return;
        };
        let Ok(elapsed) = start.elapsed(self.rt) else {
            return;
        };
        let Ok(now) = u64::try_from(elapsed.as_millis()) else {
            return;
        };
        let next = self.next.load(Ordering::SeqCst);
        if now < next {
            return;
        }
        let later = now.saturating_add(BETWEEN);
        let taken = self
            .next
            .compare_exchange(next, later, Ordering::SeqCst, Ordering::SeqCst);
        if taken.is_ok() {
            let _ = eprint!(self.rt; "{CLEAR}{done} runs done\r");
        }
    }
}

impl<R: Clock + Eprint> Gate for Progress<'_, R> {
    fn before(&self, _i: usize) {}

    fn after(&self, _i: usize) {
        let before = self.done.fetch_add(1, Ordering::SeqCst);
        self.show(before.wrapping_add(1));
    }
}
