/// A column of a chart: a tick, and the number of things that happen at it.
#[derive(Clone, Copy, Debug, PartialEq, Eq)]
pub struct Column {
    /// The tick of the column.
    pub tick: u64,
    /// The number of things that happen at the tick.
    pub count: u64,
}
