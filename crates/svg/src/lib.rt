//! Elements, attributes and escaped text of SVG, and when a document is well formed; a chart as an SVG document.
//!
//! SVG as text: elements, attributes and escaped text.
//!
//! The layer defines an XML document as a tree of elements, how it is written, and when it is well formed
//! (`specs/Content.antt`). It promises that its functions append the pieces of such a text. `law_escaped` says that escaped
//! text is character data: nothing in it is read as markup.
//!
//! A chart as an SVG document: when each task ran, which task cancelled which scope or nursery, which task ended the wait of
//! another, and which exceptions were raised.
//!
//! The layer promises that `chart_svg` returns the document of `specs/Drawing.antt`, and that this is well formed for every
//! story. It has a column for each tick at which something happens, a row for each bar, whose title is what the story says of
//! it, a cross where a task is cancelled, a dot where it raises an exception, a flag where the deadline of a scope or nursery
//! cancelled it, an arrow from each task that cancelled something, or ended the wait of another task, and a legend.
#![tactic(auto)]

mod arrows;
mod axis;
mod bars;
mod culprits;
mod deadlines;
mod definitions;
mod document;
mod laws;
mod layout;
mod legend;
mod marks;
mod names;
mod notes;
mod pieces;
mod rows;
mod scene;
mod shapes;
mod sheet;
mod style;
mod ticks;
mod titles;
mod waits;

pub use document::{Picture, chart_svg, shown_rows};
pub use laws::law_escaped;
pub use layout::MAX_ROWS;
pub use names::{Attr, Tag};
pub use pieces::{attribute, begin, end, inside, number, text};
pub use sheet::y_of;
