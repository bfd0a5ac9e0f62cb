/// The form in which a table is written.
#[derive(Clone, Copy, Debug, PartialEq, Eq)]
pub enum Form {
    /// A text with a line for each row, for people.
    Text,
    /// One JSON document, for programs.
    Json,
}
