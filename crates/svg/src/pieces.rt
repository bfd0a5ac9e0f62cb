ghost use Rattle.std.specs.Prelude.{◌≡◌, ◌++◌, OnOk, codes, decimal};
ghost use Rattle.svg.specs.Escaping.{escaped_byte, escaped_text};
ghost use Rattle.svg.specs.Content as content;
ghost use Rattle.svg.specs.Content.{tag_name, attribute_text, end_tag};

use crate::names::{Attr, Tag};
use itoa::Buffer;
use std::alloc::AllocError;

/// Begins an element. The caller appends its attributes next, and then calls `inside`. Returns `AllocError` if memory runs out;
/// `out` may then end in a part of what was to be appended.
pub fn begin(out: &mut Vec<u8>, tag: Tag) -> Result<(), AllocError>
    ensures { OnOk result (out.new.items ≡ out.old.items ++ (codes "<" ++ tag_name tag)) }
{
    out.extend_from_slice(b"<")?;
    out.extend_from_slice(tag.name())
}

/// Appends an attribute of the element that was begun. The value is escaped. Returns `AllocError` if memory runs out.
#[tactic(auto, unfolding(crate::specs::Content::attribute_text))]
pub fn attribute(out: &mut Vec<u8>, name: Attr, value: &[u8]) -> Result<(), AllocError>
    ensures { OnOk result (out.new.items ≡ out.old.items ++ attribute_text (content.attribute name value.now)) }
{
    out.extend_from_slice(b" ")?;
    out.extend_from_slice(name.name())?;
    out.extend_from_slice(b"=\"")?;
    text(out, value)?;
    out.extend_from_slice(b"\"")
}

/// Appends an attribute whose value is a number, in decimal digits. Returns `AllocError` if memory runs out.
pub fn number(out: &mut Vec<u8>, name: Attr, n: u64) -> Result<(), AllocError>
    ensures { OnOk result (out.new.items ≡ out.old.items ++ attribute_text (content.attribute name (decimal n))) }
{
    let mut buffer = Buffer::new();
    attribute(out, name, buffer.format(n).as_bytes())
}

/// Ends the attributes of an element. The caller appends the content of the element next, and then calls `end`. Returns
/// `AllocError` if memory runs out.
pub fn inside(out: &mut Vec<u8>) -> Result<(), AllocError>
    ensures { OnOk result (out.new.items ≡ out.old.items ++ codes ">") }
{
    out.extend_from_slice(b">")
}

/// Appends text, escaped. A byte that is neither a printable character of ASCII nor a newline is written as a question mark.
/// Returns `AllocError` if memory runs out.
#[tactic(auto, unfolding(crate::specs::Escaping::escaped_text))]
pub fn text(out: &mut Vec<u8>, bytes: &[u8]) -> Result<(), AllocError>
    ensures { OnOk result (out.new.items ≡ out.old.items ++ escaped_text bytes.now) }
{
    'bytes: for byte in bytes {
        escape(out, *byte)?;
    }
    Ok(())
}

// Appends a byte of text, escaped.
fn escape(out: &mut Vec<u8>, byte: u8) -> Result<(), AllocError>
    ensures { OnOk result (out.new.items ≡ out.old.items ++ escaped_byte byte) }
{
    match byte {
        b'&' => out.extend_from_slice(b"&amp;"),
        b'<' => out.extend_from_slice(b"&lt;"),
        b'>' => out.extend_from_slice(b"&gt;"),
        b'"' => out.extend_from_slice(b"&quot;"),
        b'\n' | b' '..=b'~' => {
            out.push(byte)?;
            Ok(())
        }
        _ => out.extend_from_slice(b"?"),
    }
}

/// Ends an element, with its end tag. Returns `AllocError` if memory runs out.
pub fn end(out: &mut Vec<u8>, tag: Tag) -> Result<(), AllocError>
    ensures { OnOk result (out.new.items ≡ out.old.items ++ end_tag tag) }
{
    out.extend_from_slice(b"</")?;
    out.extend_from_slice(tag.name())?;
    out.extend_from_slice(b">")
}
