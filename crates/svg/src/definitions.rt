ghost use Rattle.std.specs.Prelude.{◌≡◌, [], ◌∷◌, ◌++◌, OnOk, codes};
ghost use Rattle.svg.specs.Content.{Content, attribute, content_text, start_tag};
ghost use Rattle.svg.specs.declared.names.Tag.TheVariants as tags;
ghost use Rattle.svg.specs.declared.names.Attr.TheVariants as attrs;
ghost use Rattle.svg.specs.Drawing.{style, path, arrow_head, fill, mark_path, mark_paths, definitions};

use crate::style::STYLE;
use crate::{Attr, Tag, attribute, begin, end, inside, text};
use std::alloc::AllocError;

// Appends the style sheet.
pub(crate) fn push_style(out: &mut Vec<u8>) -> Result<(), AllocError>
    ensures { OnOk result ((rest : Content) → out.new.items ++ content_text rest ≡ out.old.items ++ content_text (style rest)) }
{
    begin(out, Tag::Style)?;
    inside(out)?;
    text(out, STYLE)?;
    end(out, Tag::Style)
}

// Appends the definitions that are used elsewhere: the head of an arrow, the patterns that fill bars, and the marks.
pub(crate) fn push_definitions(out: &mut Vec<u8>) -> Result<(), AllocError>
    ensures { OnOk result ((rest : Content) → out.new.items ++ content_text rest ≡ out.old.items ++ content_text (definitions rest)) }
{
    begin(out, Tag::Defs)?;
    inside(out)?;
    push_each(out)?;
    end(out, Tag::Defs)
}

// Appends the definitions one after the other.
fn push_each(out: &mut Vec<u8>) -> Result<(), AllocError>
    ensures { OnOk result ((rest : Content) → out.new.items ++ content_text rest ≡ out.old.items ++ content_text (arrow_head
        (fill (codes "slanted") (codes "M0 6 6 0") (fill (codes "crossed") (codes "M0 6 6 0M0 0 6 6") (mark_paths rest))))) }
{
    push_arrow_head(out)?;
    push_fill(out, b"slanted", b"M0 6 6 0")?;
    push_fill(out, b"crossed", b"M0 6 6 0M0 0 6 6")?;
    push_mark_paths(out)
}

// Appends the head of an arrow.
fn push_arrow_head(out: &mut Vec<u8>) -> Result<(), AllocError>
    ensures { OnOk result ((rest : Content) → out.new.items ++ content_text rest ≡ out.old.items ++ content_text (arrow_head rest)) }
{
    begin_arrow_head(out)?;
    push_path(out, b"head", b"M0 0 8 4 0 8z")?;
    end(out, Tag::Marker)
}

// Begins the head of an arrow.
fn begin_arrow_head(out: &mut Vec<u8>) -> Result<(), AllocError>
    ensures { OnOk result (out.new.items ≡ out.old.items ++ start_tag tags.Marker
        (attribute attrs.Id (codes "arrow") ∷ attribute attrs.ViewBox (codes "0 0 8 8") ∷ attribute attrs.RefX (codes "7")
        ∷ attribute attrs.RefY (codes "4") ∷ attribute attrs.MarkerWidth (codes "7") ∷ attribute attrs.MarkerHeight (codes "7")
        ∷ attribute attrs.Orient (codes "auto") ∷ [])) }
{
    begin(out, Tag::Marker)?;
    attribute(out, Attr::Id, b"arrow")?;
    attribute(out, Attr::ViewBox, b"0 0 8 8")?;
    attribute(out, Attr::RefX, b"7")?;
    attribute(out, Attr::RefY, b"4")?;
    attribute(out, Attr::MarkerWidth, b"7")?;
    attribute(out, Attr::MarkerHeight, b"7")?;
    attribute(out, Attr::Orient, b"auto")?;
    inside(out)
}

// Appends a pattern that fills a bar.
fn push_fill(out: &mut Vec<u8>, id: &[u8], steps: &[u8]) -> Result<(), AllocError>
    ensures { OnOk result ((rest : Content) → out.new.items ++ content_text rest ≡ out.old.items ++ content_text (fill id.now steps.now rest)) }
{
    begin_fill(out, id)?;
    push_path(out, id, steps)?;
    end(out, Tag::Pattern)
}

// Begins a pattern that fills a bar.
fn begin_fill(out: &mut Vec<u8>, id: &[u8]) -> Result<(), AllocError>
    ensures { OnOk result (out.new.items ≡ out.old.items ++ start_tag tags.Pattern
        (attribute attrs.Id id.now ∷ attribute attrs.PatternUnits (codes "userSpaceOnUse") ∷ attribute attrs.Width (codes "6")
        ∷ attribute attrs.Height (codes "6") ∷ [])) }
{
    begin(out, Tag::Pattern)?;
    attribute(out, Attr::Id, id)?;
    attribute(out, Attr::PatternUnits, b"userSpaceOnUse")?;
    attribute(out, Attr::Width, b"6")?;
    attribute(out, Attr::Height, b"6")?;
    inside(out)
}

// Appends a path.
fn push_path(out: &mut Vec<u8>, class: &[u8], steps: &[u8]) -> Result<(), AllocError>
    ensures { OnOk result ((rest : Content) → out.new.items ++ content_text rest ≡ out.old.items ++ content_text (path class.now steps.now rest)) }
{
    begin(out, Tag::Path)?;
    attribute(out, Attr::Class, class)?;
    attribute(out, Attr::D, steps)?;
    inside(out)?;
    end(out, Tag::Path)
}

// Appends the cross, and the flag of a deadline.
fn push_mark_paths(out: &mut Vec<u8>) -> Result<(), AllocError>
    ensures { OnOk result ((rest : Content) → out.new.items ++ content_text rest ≡ out.old.items ++ content_text (mark_paths rest)) }
{
    push_mark_path(out, b"cross", b"M-4-4 4 4M-4 4 4-4")?;
    push_mark_path(out, b"deadline", b"M0 8V-8L7-4 0 0")
}

// Appends a mark, with the point where it is used at its centre.
fn push_mark_path(out: &mut Vec<u8>, id: &[u8], steps: &[u8]) -> Result<(), AllocError>
    ensures { OnOk result ((rest : Content) → out.new.items ++ content_text rest
        ≡ out.old.items ++ content_text (mark_path id.now steps.now rest)) }
{
    begin(out, Tag::Path)?;
    attribute(out, Attr::Id, id)?;
    attribute(out, Attr::Class, id)?;
    attribute(out, Attr::D, steps)?;
    inside(out)?;
    end(out, Tag::Path)
}
