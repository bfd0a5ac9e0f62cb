/// How the lines of a text are shown.
#[derive(Clone, Copy, Debug, PartialEq, Eq)]
pub enum LineKind {
    /// As they are.
    Plain,
    /// As rows of a table, with a link from the place with which a line begins to the line of the job.
    Placed,
    /// With links from the task with which a line of a story begins to its row in the chart, and from the sentence to a line of
    /// the job.
    Story,
}
