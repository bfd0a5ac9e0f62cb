ghost use Rattle.std.specs.Prelude.{◌≡◌, [], ◌∷◌, ◌++◌, OnOk, codes};
ghost use Rattle.svg.specs.Content.{attribute, start_tag};
ghost use Rattle.svg.specs.declared.names.Attr.TheVariants as attrs;
ghost use Rattle.page.specs.Markup.{element_text, classed, link};
ghost use Rattle.svg.specs.Escaping.{escaped_text};

use std::alloc::{AllocError, Global};
use svg::{Attr, Tag, attribute, begin, end, inside, text};

// Begins an element without attributes. Its content and its end tag come next.
pub(crate) fn begin_plain(out: &mut Vec<u8>, tag: Tag) -> Result<(), AllocError>
    ensures { OnOk result (out.new.items ≡ out.old.items ++ start_tag tag []) }
{
    begin(out, tag)?;
    inside(out)
}

// Begins an element with one attribute.
pub(crate) fn begin_with(
    out: &mut Vec<u8>,
    tag: Tag,
    name: Attr,
    value: &[u8],
) -> Result<(), AllocError>
    ensures { OnOk result (out.new.items ≡ out.old.items ++ start_tag tag (attribute name value.now ∷ [])) }
{
    begin(out, tag)?;
    attribute(out, name, value)?;
    inside(out)
}

// Appends an element without attributes that has a text.
pub(crate) fn push_plain(out: &mut Vec<u8>, tag: Tag, bytes: &[u8]) -> Result<(), AllocError>
    ensures { OnOk result (out.new.items ≡ out.old.items ++ element_text tag [] (escaped_text bytes.now)) }
{
    begin_plain(out, tag)?;
    text(out, bytes)?;
    end(out, tag)
}

// Appends an element of a class that has a text.
pub(crate) fn push_classed(
    out: &mut Vec<u8>,
    tag: Tag,
    class: &[u8],
    bytes: &[u8],
) -> Result<(), AllocError>
    ensures { OnOk result (out.new.items ≡ out.old.items ++ classed tag class.now (escaped_text bytes.now)) }
{
    begin_with(out, tag, Attr::Class, class)?;
    text(out, bytes)?;
    end(out, tag)
}

// Appends a link to an element of the page, with what is shown of it.
pub(crate) fn push_link(
    alloc: Global,
    out: &mut Vec<u8>,
    id: &[u8],
    shown: &[u8],
) -> Result<(), AllocError>
    ensures { OnOk result (out.new.items ≡ out.old.items ++ link id.now shown.now) }
{
    let mut target = Vec::new(alloc);
    target.extend_from_slice(b"#")?;
    target.extend_from_slice(id)?;
    begin_with(out, Tag::A, Attr::Href, target.as_slice())?;
    text(out, shown)?;
    end(out, Tag::A)
}
