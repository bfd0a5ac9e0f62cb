/// The form of a chart.
#[derive(Clone, Copy, Debug, PartialEq, Eq)]
pub enum ChartForm {
    /// A text with a line for each row.
    Text {
        /// The maximum length of a line, in bytes, without its newline.
        width: usize,
    },
    /// An SVG document.
    Svg {
        /// The width, in bytes, of the text whose columns the document has room for.
        width: usize,
    },
}
