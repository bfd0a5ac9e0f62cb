ghost use Rattle.std.specs.Prelude.{◌≡◌, ◌++◌, [], ◌∷◌, OnOk, decimal, codes, take};
ghost use Rattle.std.specs.List.{flat_map};
ghost use Rattle.exceptions.specs.Texts.{label_text, place_text, index_text};

use crate::Label;
use basics::push_number;
use std::alloc::AllocError;

/// Appends the text of a label, as `p.1`: its name, and then a dot and the number for each index. Returns `AllocError` if memory
/// runs out.
pub fn push_label(out: &mut Vec<u8>, label: &Label) -> Result<(), AllocError>
    ensures { OnOk result (out.new.items ≡ out.old.items ++ label_text label.now) }
{
    let name = label.name();
    out.extend_from_slice(name.bytes())?;
    push_indices(out, label.indices())
}

// Appends a dot and the number for each index.
fn push_indices(out: &mut Vec<u8>, indices: &[u64]) -> Result<(), AllocError>
    ensures { OnOk result (out.new.items ≡ out.old.items ++ flat_map index_text indices.now) }
{
    'indices: for index in indices {
        out.extend_from_slice(b".")?;
        push_number(out, *index)?;
    }
    Ok(())
}

// Appends a label and a tick, as `(p.1@7)`.
pub(crate) fn push_place(out: &mut Vec<u8>, label: &Label, tick: u64) -> Result<(), AllocError>
    ensures { OnOk result (out.new.items ≡ out.old.items ++ place_text label.now tick) }
{
    out.extend_from_slice(b"(")?;
    push_label(out, label)?;
    out.extend_from_slice(b"@")?;
    push_number(out, tick)?;
    out.extend_from_slice(b")")
}
