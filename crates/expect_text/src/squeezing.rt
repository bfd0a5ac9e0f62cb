ghost use Rattle.std.specs.Prelude.{◌≡◌, ◌++◌, ℕ, IfOk, List, OnOk};
ghost use Rattle.expect_text.specs.Patterns.{after_gap, is_blank, squeezed_text, with_blank};

use std::alloc::{AllocError, Global};

/// What is between the last byte of a text that was kept and the next byte.
#[derive(Clone, Copy, Debug, PartialEq, Eq)]
pub(crate) enum Gap {
    /// No byte was kept yet: blanks do not count.
    Start,
    /// No blank.
    Closed,
    /// Blanks, which are one space if another byte comes.
    Owed,
}

// Returns a text without the blanks at its start and its end, and with one space for each other run of blanks.
pub(crate) fn squeezed_text(alloc: Global, text: &[u8]) -> Result<Vec<u8>, AllocError>
    ensures { IfOk result (λ bytes. bytes.items ≡ squeezed_text text.now) }
{
    let mut bytes = Vec::new(alloc);
    let mut gap = Gap::Start;
    'bytes: for b in text {
        if is_blank(*b) {
            gap = with_blank(gap);
        } else {
            push_after(&mut bytes, gap, *b)?;
            gap = Gap::Closed;
        }
    }
    Ok(bytes)
}

// Appends a byte, after a space if blanks came before it.
fn push_after(bytes: &mut Vec<u8>, gap: Gap, b: u8) -> Result<(), AllocError>
    ensures { OnOk result ((rest : List ℕ) → bytes.new.items ++ rest ≡ bytes.old.items ++ after_gap gap b rest) }
{
    match gap {
        Gap::Start | Gap::Closed => {}
        Gap::Owed => bytes.push(b' ')?,
    }
    bytes.push(b)?;
    Ok(())
}

// Returns the gap after one more blank.
fn with_blank(gap: Gap) -> Gap
    ensures { result ≡ with_blank gap }
{
    match gap {
        Gap::Start => Gap::Start,
        Gap::Closed | Gap::Owed => Gap::Owed,
    }
}

// Returns whether a byte is a space, a tab or a carriage return.
pub(crate) fn is_blank(b: u8) -> bool
    ensures { result ≡ is_blank b }
{
    b == b' ' || b == b'\t' || b == b'\r'
}
