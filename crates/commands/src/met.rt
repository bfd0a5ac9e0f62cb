/// Whether an expectation is met, and why not.
#[derive(Debug, Drop)]
pub enum Met {
    /// The expectation is met.
    Yes,
    /// A line matches a pattern that no line may match: the first such line of the report, or of the story if the report has
    /// none.
    Found {
        /// Whether it is a line of the story, and not of the report.
        story: bool,
        /// The number of the line, from 1.
        line: usize,
    },
    /// No line of the report or the story matches the pattern.
    Missing,
    /// These lines of `faults` or of `races` are denied.
    Denied(Vec<u8>),
    /// Nothing is known of faults or races: the job text is refused, or, for races, the job does not end by the limit or a number
    /// of its ticks is too large to be made finer.
    Untold,
}
