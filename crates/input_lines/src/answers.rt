use crate::lines::FoundLines;

/// The answer of a kernel on a part. Its lines borrow from the input.
#[derive(Drop)]
pub enum Answer<'a> {
    /// Lines of the part, in order: the answer of `Find`, `Head`, `Longest`, and of `Need` if a line contains the string.
    Lines(FoundLines<'a>),
    /// The number of lines of the part: the answer of `Count`.
    Count(u64),
    /// The answer of `Need` if no line contains the string.
    Missing,
}
