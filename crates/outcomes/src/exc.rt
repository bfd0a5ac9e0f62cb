ghost use Rattle.std.specs.Prelude.{◌≡◌, ◌++◌, OnOk, codes};
ghost use Rattle.exceptions.specs.Exceptions as tree;
ghost use Rattle.exceptions.specs.Held.{exc_of, excs_of};
ghost use Rattle.outcomes.specs.Groups.{sans_text, sans_parts, sans_more};

use exceptions::{Exc, push_label, push_whose};
use std::alloc::AllocError;

/// Appends an exception without the ticks at which it was raised, and a group with its parts in brackets. The only error is
/// that memory runs out.
#[cycle(exc)]
pub fn push_sans(out: &mut Vec<u8>, exc: &Exc) -> Result<(), AllocError>
    ensures { OnOk result (out.new.items ≡ out.old.items ++ sans_text (exc_of exc.now)) }
{
    match exc {
        Exc::Cancelled => out.extend_from_slice(b"Cancelled"),
        Exc::Raised { name, task, .. } => {
            out.extend_from_slice(name.bytes())?;
            out.extend_from_slice(b"(")?;
            push_label(out, task)?;
            out.extend_from_slice(b")")
        }
        Exc::TooSlow { scope, .. } => {
            out.extend_from_slice(b"TooSlow(")?;
            push_label(out, scope)?;
            out.extend_from_slice(b")")
        }
        Exc::Group { whose, parts } => {
            push_whose(out, whose)?;
            out.extend_from_slice(b"[")?;
            push_sans_parts(out, parts.as_slice())?;
            out.extend_from_slice(b"]")
        }
    }
}

// Appends the parts of a group, with a comma and a space between them.
#[cycle(exc)]
fn push_sans_parts(out: &mut Vec<u8>, parts: &[Exc]) -> Result<(), AllocError>
    ensures { OnOk result (out.new.items ≡ out.old.items ++ sans_parts (excs_of parts.now)) }
{
    let Some((first, others)) = parts.split_first() else {
        return Ok(());
    };
    push_sans(out, first)?;
    push_sans_more(out, others)
}

// Appends each part after a comma and a space.
#[cycle(exc)]
fn push_sans_more(out: &mut Vec<u8>, parts: &[Exc]) -> Result<(), AllocError>
    ensures { OnOk result (out.new.items ≡ out.old.items ++ sans_more (excs_of parts.now)) }
{
    let mut rest = parts;
    'parts: while let Some((part, others)) = rest.split_first() {
        out.extend_from_slice(b", ")?;
        push_sans(out, part)?;
        rest = others;
    }
    Ok(())
}
