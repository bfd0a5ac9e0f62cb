use input_lines::Answer;

/// A place for the answer to one request.
#[derive(Drop)]
pub struct Slot<'a> {
    /// What the slot holds.
    pub content: Content<'a>,
}

/// What a slot holds.
#[derive(Drop)]
pub enum Content<'a> {
    /// Nothing. No request was computed for this slot yet.
    Empty,
    /// The answer to the slot's request.
    Done(Answer<'a>),
    /// Memory ran out while the slot's request was computed.
    NoMemory,
}
