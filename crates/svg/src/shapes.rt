ghost use Rattle.std.specs.Prelude.{◌≡◌, ◌≤◌, [], ◌∷◌, ◌++◌, OnOk, codes, decimal};
ghost use Rattle.svg.specs.Content.{Content, nothing, element, attribute, content_text, start_tag};
ghost use Rattle.svg.specs.declared.names.Tag.TheVariants as tags;
ghost use Rattle.svg.specs.declared.names.Attr.TheVariants as attrs;
ghost use Rattle.svg.specs.Rows.{width_to, box, rectangle, words, used, dot};
ghost use Rattle.svg.specs.Arrows.{segment};
ghost use Rattle.svg.specs.Held.{size_held};

use crate::sheet::y_of;
use crate::{Attr, Tag, attribute, begin, end, inside, number, text};
use std::alloc::AllocError;

// The height of a bar and its position on its row, in pixels, and the indent of its name, in letters.
#[derive(Clone, Copy)]
pub(crate) struct Size {
    pub indent: u64,
    pub down: u64,
    pub height: u64,
}

// Begins a rectangle on a row, from one x coordinate to another. Its content and its end tag come next.
pub(crate) fn begin_rectangle(
    out: &mut Vec<u8>,
    row: usize,
    size: Size,
    class: &[u8],
    x: u64,
    end: u64,
) -> Result<(), AllocError>
    requires { size.down ≤ 24 }
    ensures { OnOk result (out.new.items ≡ out.old.items ++ start_tag tags.Rect (rectangle row (size_held size) class.now x end)) }
{
    let y = y_of(row) + size.down;
    begin_box(out, class, x, y, width_to(x, end), size.height)
}

// Appends a rectangle at a point, of this width and height.
pub(crate) fn push_box(
    out: &mut Vec<u8>,
    class: &[u8],
    x: u64,
    y: u64,
    width: u64,
    height: u64,
) -> Result<(), AllocError>
    ensures { OnOk result ((rest : Content) → out.new.items ++ content_text rest
        ≡ out.old.items ++ content_text (element tags.Rect (box class.now x y width height) nothing rest)) }
{
    begin_box(out, class, x, y, width, height)?;
    end(out, Tag::Rect)
}

// Begins a rectangle at a point, of this width and height.
fn begin_box(
    out: &mut Vec<u8>,
    class: &[u8],
    x: u64,
    y: u64,
    width: u64,
    height: u64,
) -> Result<(), AllocError>
    ensures { OnOk result (out.new.items ≡ out.old.items ++ start_tag tags.Rect (box class.now x y width height)) }
{
    begin(out, Tag::Rect)?;
    attribute(out, Attr::Class, class)?;
    number(out, Attr::X, x)?;
    number(out, Attr::Y, y)?;
    number(out, Attr::Width, width)?;
    number(out, Attr::Height, height)?;
    attribute(out, Attr::Rx, b"3")?;
    inside(out)
}

// Returns the width of a rectangle from one x coordinate to another, which is at least 2 pixels.
fn width_to(x: u64, end: u64) -> u64
    ensures { result ≡ width_to x end }
{
    end.saturating_sub(x).max(2)
}

// Appends a text at a point.
pub(crate) fn push_words(
    out: &mut Vec<u8>,
    class: &[u8],
    x: u64,
    y: u64,
    bytes: &[u8],
) -> Result<(), AllocError>
    ensures { OnOk result ((rest : Content) → out.new.items ++ content_text rest
        ≡ out.old.items ++ content_text (words class.now x y bytes.now rest)) }
{
    begin_words(out, class, x, y)?;
    text(out, bytes)?;
    end(out, Tag::Text)
}

// Begins a text at a point.
fn begin_words(out: &mut Vec<u8>, class: &[u8], x: u64, y: u64) -> Result<(), AllocError>
    ensures { OnOk result (out.new.items ≡ out.old.items ++ start_tag tags.Text
        (attribute attrs.Class class.now ∷ attribute attrs.X (decimal x) ∷ attribute attrs.Y (decimal y) ∷ [])) }
{
    begin(out, Tag::Text)?;
    attribute(out, Attr::Class, class)?;
    number(out, Attr::X, x)?;
    number(out, Attr::Y, y)?;
    inside(out)
}

// Appends a line from one point to another.
pub(crate) fn push_line(
    out: &mut Vec<u8>,
    class: &[u8],
    x1: u64,
    y1: u64,
    x2: u64,
    y2: u64,
) -> Result<(), AllocError>
    ensures { OnOk result ((rest : Content) → out.new.items ++ content_text rest
        ≡ out.old.items ++ content_text (element tags.Line (segment class.now x1 y1 x2 y2) nothing rest)) }
{
    begin_line(out, class, x1, y1, x2, y2)?;
    end(out, Tag::Line)
}

// Begins a line from one point to another. Its content and its end tag come next.
pub(crate) fn begin_line(
    out: &mut Vec<u8>,
    class: &[u8],
    x1: u64,
    y1: u64,
    x2: u64,
    y2: u64,
) -> Result<(), AllocError>
    ensures { OnOk result (out.new.items ≡ out.old.items ++ start_tag tags.Line (segment class.now x1 y1 x2 y2)) }
{
    begin(out, Tag::Line)?;
    attribute(out, Attr::Class, class)?;
    number(out, Attr::X1, x1)?;
    number(out, Attr::Y1, y1)?;
    number(out, Attr::X2, x2)?;
    number(out, Attr::Y2, y2)?;
    inside(out)
}

// Appends one of the definitions at a point, by its reference.
pub(crate) fn push_use(
    out: &mut Vec<u8>,
    reference: &[u8],
    x: u64,
    y: u64,
) -> Result<(), AllocError>
    ensures { OnOk result ((rest : Content) → out.new.items ++ content_text rest
        ≡ out.old.items ++ content_text (element tags.Use (used reference.now x y) nothing rest)) }
{
    begin_use(out, reference, x, y)?;
    end(out, Tag::Use)
}

// Begins one of the definitions at a point, by its reference. Its content and its end tag come next.
pub(crate) fn begin_use(
    out: &mut Vec<u8>,
    reference: &[u8],
    x: u64,
    y: u64,
) -> Result<(), AllocError>
    ensures { OnOk result (out.new.items ≡ out.old.items ++ start_tag tags.Use (used reference.now x y)) }
{
    begin(out, Tag::Use)?;
    attribute(out, Attr::Href, reference)?;
    number(out, Attr::X, x)?;
    number(out, Attr::Y, y)?;
    inside(out)
}

// Appends a dot at a point.
pub(crate) fn push_dot(out: &mut Vec<u8>, x: u64, y: u64) -> Result<(), AllocError>
    ensures { OnOk result ((rest : Content) → out.new.items ++ content_text rest
        ≡ out.old.items ++ content_text (element tags.Circle (dot x y) nothing rest)) }
{
    begin_dot(out, x, y)?;
    end(out, Tag::Circle)
}

// Begins a dot at a point. Its content and its end tag come next.
pub(crate) fn begin_dot(out: &mut Vec<u8>, x: u64, y: u64) -> Result<(), AllocError>
    ensures { OnOk result (out.new.items ≡ out.old.items ++ start_tag tags.Circle (dot x y)) }
{
    begin(out, Tag::Circle)?;
    attribute(out, Attr::Class, b"dot")?;
    number(out, Attr::Cx, x)?;
    number(out, Attr::Cy, y)?;
    attribute(out, Attr::R, b"4")?;
    inside(out)
}
