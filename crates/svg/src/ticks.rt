ghost use Rattle.std.specs.Prelude.{◌≡◌, ◌-◌, ◌++◌, OnOk, map, codes, decimal};
ghost use Rattle.chart.specs.HeldColumns.{column_of};
ghost use Rattle.svg.specs.Content.{Content, content_text};
ghost use Rattle.svg.specs.Rows.{words};
ghost use Rattle.svg.specs.Drawing.{tick_line, tick_lines};
ghost use Rattle.svg.specs.Held.{sheet_held};
ghost use Rattle.svg.specs.declared.layout.TheConstants.{TOP};

use crate::axis::next_place;
use crate::layout::TOP;
use crate::shapes::{push_line, push_words};
use crate::sheet::Sheet;
use crate::text;
use basics::push_number;
use chart::Column;
use std::alloc::{AllocError, Global};

// Appends each of these columns' tick, with a line down to the bottom.
pub(crate) fn push_tick_lines(
    alloc: Global,
    out: &mut Vec<u8>,
    sheet: &Sheet<'_, '_, '_>,
    bottom: u64,
    columns: &[Column],
) -> Result<(), AllocError>
    ensures { OnOk result ((rest : Content) → out.new.items ++ content_text rest
        ≡ out.old.items ++ content_text (tick_lines (sheet_held sheet.now) bottom 0 (map column_of columns.now) rest)) }
{
    let mut at = 0;
    let mut rest = columns;
    'columns: while let Some((column, others)) = rest.split_first() {
        push_tick_line(alloc, out, sheet.x_from(at), bottom, column)?;
        at = next_place(sheet.less, at, column, others);
        rest = others;
    }
    Ok(())
}

// Appends a column's tick at an x coordinate, with a line down to the bottom.
fn push_tick_line(
    alloc: Global,
    out: &mut Vec<u8>,
    x: u64,
    bottom: u64,
    column: &Column,
) -> Result<(), AllocError>
    ensures { OnOk result ((rest : Content) → out.new.items ++ content_text rest
        ≡ out.old.items ++ content_text (tick_line x bottom (column_of column.now) rest)) }
{
    push_line(out, b"tick", x, TOP, x, bottom)?;
    push_tick(alloc, out, x, column.tick)?;
    text(out, b"\n")
}

// Appends a tick above its line.
fn push_tick(alloc: Global, out: &mut Vec<u8>, x: u64, tick: u64) -> Result<(), AllocError>
    ensures { OnOk result ((rest : Content) → out.new.items ++ content_text rest
        ≡ out.old.items ++ content_text (words (codes "tick") x (TOP - 6) (decimal tick) rest)) }
{
    let mut bytes = Vec::new(alloc);
    push_number(&mut bytes, tick)?;
    push_words(out, b"tick", x, TOP - 6, bytes.as_slice())
}
