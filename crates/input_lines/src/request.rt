use crate::Part;
use crate::kernel::Kernel;

/// A kernel and the part that it is asked of.
#[derive(Clone, Copy)]
pub struct Request<'a> {
    /// The question.
    pub kernel: Kernel<'a>,
    /// The part whose lines are searched.
    pub part: Part<'a>,
}
