ghost use Rattle.std.specs.Prelude.{◌≡◌, ◌++◌, OnOk, IfOk, codes, decimal};
ghost use Rattle.svg.specs.Content.{Content, element, content_text};
ghost use Rattle.svg.specs.declared.names.Tag.TheVariants as tags;
ghost use Rattle.svg.specs.Sheets.{x_by, middle_of};
ghost use Rattle.svg.specs.Rows.{used};
ghost use Rattle.svg.specs.Arrows.{deadline_title};
ghost use Rattle.svg.specs.Held.{sheet_held};

use crate::shapes::begin_use;
use crate::sheet::{Sheet, middle_of};
use crate::{Tag, begin, end, inside, text};
use basics::push_number;
use std::alloc::{AllocError, Global};

// Appends the mark of a deadline, which is in this moment, on a row.
pub(crate) fn push_deadline(
    alloc: Global,
    out: &mut Vec<u8>,
    sheet: &Sheet<'_, '_, '_>,
    row: usize,
    moment: u64,
) -> Result<(), AllocError>
    ensures { OnOk result ((rest : Content) → out.new.items ++ content_text rest ≡ out.old.items
        ++ content_text (element tags.Use (used (codes "#deadline") (x_by (sheet_held sheet.now) moment) (middle_of row))
        (deadline_title (sheet_held sheet.now).clock moment) rest)) }
{
    begin_use(out, b"#deadline", sheet.x_by(moment), middle_of(row))?;
    push_deadline_title(alloc, out, sheet, moment)?;
    end(out, Tag::Use)
}

// Appends the title of the mark of a deadline.
fn push_deadline_title(
    alloc: Global,
    out: &mut Vec<u8>,
    sheet: &Sheet<'_, '_, '_>,
    moment: u64,
) -> Result<(), AllocError>
    ensures { OnOk result (out.new.items ≡ out.old.items ++ content_text (deadline_title (sheet_held sheet.now).clock moment)) }
{
    let title = deadline_text(alloc, sheet.tick_of(moment))?;
    begin(out, Tag::Title)?;
    inside(out)?;
    text(out, title.as_slice())?;
    end(out, Tag::Title)
}

// Returns the title of the mark of a deadline that is at this tick.
fn deadline_text(alloc: Global, tick: u64) -> Result<Vec<u8>, AllocError>
    ensures { IfOk result (λ title. title.items ≡ codes "deadline " ++ decimal tick) }
{
    let mut title = Vec::new(alloc);
    title.extend_from_slice(b"deadline ")?;
    push_number(&mut title, tick)?;
    Ok(title)
}
