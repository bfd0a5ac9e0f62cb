/// Functions that a worker calls before and after each request that it computes. The program shows its progress with a
/// gate, and tests use one to observe the workers.
pub trait Gate {
    /// Called before the request with number `i` in the batch is computed, by the worker that computes it.
    fn before(&self, i: usize);

    /// Called after the request with number `i` in the batch was computed, or memory ran out for it, by the worker that
    /// computed it.
    fn after(&self, i: usize);
}

/// A gate that does nothing.
#[derive(Clone, Copy, Debug)]
pub struct NoGate;

impl Gate for NoGate {
    fn before(&self, _i: usize) {}

    fn after(&self, _i: usize) {}
}
