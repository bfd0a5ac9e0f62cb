ghost use Rattle.std.specs.Prelude.{◌≡◌};
ghost use Rattle.svg.specs.Content.{tag_name, attr_name};

/// The elements of SVG that charts use, and those of HTML that pages use.
#[derive(Clone, Copy, Debug, PartialEq, Eq)]
pub enum Tag {
    /// The whole document, `svg`.
    Svg,
    /// A title, which a browser shows for the enclosing element.
    Title,
    /// A style sheet.
    Style,
    /// Definitions of elements that are used elsewhere.
    Defs,
    /// A marker, such as the head of an arrow.
    Marker,
    /// A pattern, with which an area is filled.
    Pattern,
    /// A path.
    Path,
    /// A text.
    Text,
    /// A rectangle.
    Rect,
    /// A line.
    Line,
    /// A circle.
    Circle,
    /// A copy of an element that is defined elsewhere.
    Use,
    /// The whole page, `html`.
    Html,
    /// What a page has before its content.
    Head,
    /// The content of a page.
    Body,
    /// The main content of a page.
    Main,
    /// A section of a page.
    Section,
    /// The heading of a page.
    H1,
    /// The heading of a section.
    H2,
    /// A paragraph.
    P,
    /// Text whose lines and spaces are kept.
    Pre,
    /// A link.
    A,
    /// A part of a line.
    Span,
    /// A part of a page.
    Div,
    /// A part of a page that can be folded.
    Details,
    /// What is shown of a part that is folded.
    Summary,
    /// What stands below the content.
    Footer,
    /// Links to the sections of a page.
    Nav,
    /// A table.
    Table,
    /// The head of a table.
    Thead,
    /// The rows of a table below its head.
    Tbody,
    /// A row of a table.
    Tr,
    /// A cell of the head of a table.
    Th,
    /// A cell of a table.
    Td,
}

impl Tag {
    // Returns the name of the element, as in SVG or HTML.
    pub(crate) fn name(self) -> &'static [u8]
        ensures { result.now ≡ tag_name self }
    {
        match self {
            Tag::Svg => b"svg",
            Tag::Title => b"title",
            Tag::Style => b"style",
            Tag::Defs => b"defs",
            Tag::Marker => b"marker",
            Tag::Pattern => b"pattern",
            Tag::Path => b"path",
            Tag::Text => b"text",
            Tag::Rect => b"rect",
            Tag::Line => b"line",
            Tag::Circle => b"circle",
            Tag::Use => b"use",
            Tag::Html => b"html",
            Tag::Head => b"head",
            Tag::Body => b"body",
            Tag::Main => b"main",
            Tag::Section => b"section",
            Tag::H1 => b"h1",
            Tag::H2 => b"h2",
            Tag::P => b"p",
            Tag::Pre => b"pre",
            Tag::A => b"a",
            Tag::Span => b"span",
            Tag::Div => b"div",
            Tag::Details => b"details",
            Tag::Summary => b"summary",
            Tag::Footer => b"footer",
            Tag::Nav => b"nav",
            Tag::Table => b"table",
            Tag::Thead => b"thead",
            Tag::Tbody => b"tbody",
            Tag::Tr => b"tr",
            Tag::Th => b"th",
            Tag::Td => b"td",
        }
    }
}

/// The attributes of elements that charts and pages use.
#[derive(Clone, Copy, Debug, PartialEq, Eq)]
pub enum Attr {
    /// The namespace of the element's names.
    Xmlns,
    /// The part of the plane that is shown.
    ViewBox,
    /// The name by which other elements of the document refer to the element.
    Id,
    /// The class of the element in the style sheet.
    Class,
    /// The width.
    Width,
    /// The height.
    Height,
    /// The x coordinate at which the element begins.
    X,
    /// The y coordinate at which the element begins.
    Y,
    /// The start of a line, from the left.
    X1,
    /// The start of a line, from the top.
    Y1,
    /// The end of a line, from the left.
    X2,
    /// The end of a line, from the top.
    Y2,
    /// The centre of a circle, from the left.
    Cx,
    /// The centre of a circle, from the top.
    Cy,
    /// The radius of a circle.
    R,
    /// The radius of a rectangle's corners.
    Rx,
    /// The steps of a path.
    D,
    /// The element that is copied.
    Href,
    /// The x coordinate in a marker of the point that lies on the end of the line.
    RefX,
    /// The y coordinate in a marker of the point that lies on the end of the line.
    RefY,
    /// The width of a marker.
    MarkerWidth,
    /// The height of a marker.
    MarkerHeight,
    /// The direction in which a marker points.
    Orient,
    /// The unit in which a pattern is measured.
    PatternUnits,
    /// The language of the text.
    Lang,
    /// The style of this element alone.
    Style,
    /// What the head of a table is about: its column or its row.
    Scope,
}

impl Attr {
    // Returns the name of the attribute, as in SVG or HTML.
    pub(crate) fn name(self) -> &'static [u8]
        ensures { result.now ≡ attr_name self }
    {
        match self {
            Attr::Xmlns => b"xmlns",
            Attr::ViewBox => b"viewBox",
            Attr::Id => b"id",
            Attr::Class => b"class",
            Attr::Width => b"width",
            Attr::Height => b"height",
            Attr::X => b"x",
            Attr::Y => b"y",
            Attr::X1 => b"x1",
            Attr::Y1 => b"y1",
            Attr::X2 => b"x2",
            Attr::Y2 => b"y2",
            Attr::Cx => b"cx",
            Attr::Cy => b"cy",
            Attr::R => b"r",
            Attr::Rx => b"rx",
            Attr::D => b"d",
            Attr::Href => b"href",
            Attr::RefX => b"refX",
            Attr::RefY => b"refY",
            Attr::MarkerWidth => b"markerWidth",
            Attr::MarkerHeight => b"markerHeight",
            Attr::Orient => b"orient",
            Attr::PatternUnits => b"patternUnits",
            Attr::Lang => b"lang",
            Attr::Style => b"style",
            Attr::Scope => b"scope",
        }
    }
}
