ghost use Rattle.std.specs.Prelude.{◌≡◌, ◌≤◌, ◌<◌, ◌++◌, OnOk, map};
ghost use Rattle.chart.specs.HeldBars.{bar_of};
ghost use Rattle.chart.specs.HeldColumns.{column_of};
ghost use Rattle.chart.specs.Text.{panel_text, panels_text};

use crate::lines::{Sheet, push_header, push_rows};
use crate::numbers::numbers;
use crate::{Bar, Column};
use std::alloc::{AllocError, Global};

// Columns that are cut into so many panels of `size` columns.
#[derive(Clone, Copy)]
pub(crate) struct Panels<'c> {
    pub columns: &'c [Column],
    pub size: usize,
    pub count: usize,
}

// Appends panels, one below the other.
#[tactic(auto, using(crate::proofs::PanelByPanel::all_panels))]
pub(crate) fn push_panels(
    alloc: Global,
    out: &mut Vec<u8>,
    sheet: Sheet,
    bars: &[Bar<'_, '_>],
    panels: &Panels<'_>,
) -> Result<(), AllocError>
    ensures { OnOk result (out.new.items ≡ out.old.items
        ++ panels_text sheet.clock sheet.width sheet.last sheet.less sheet.names (map bar_of bars.now) panels.now.size panels.now.count
        (map column_of panels.now.columns.now)) }
{
    let mut left = panels.count;
    let mut rest = panels.columns;
    'panels: while left > 0 {
        let (panel, others) = rest.split_at(panel_end(panels.size, rest.len()));
        push_panel(alloc, out, sheet, bars, panel)?;
        rest = others;
        left -= 1;
    }
    Ok(())
}

// Returns where a panel of `size` columns ends if there are so many columns left.
fn panel_end(size: usize, columns: usize) -> usize
    ensures small { result ≤ size }
    ensures within { result ≤ columns }
    ensures full { result < columns → size ≤ result }
{
    if size <= columns { size } else { columns }
}

// Appends some columns with their numbers, and the rows that have a part there.
fn push_panel(
    alloc: Global,
    out: &mut Vec<u8>,
    sheet: Sheet,
    bars: &[Bar<'_, '_>],
    panel: &[Column],
) -> Result<(), AllocError>
    ensures { OnOk result (out.new.items ≡ out.old.items
        ++ panel_text sheet.clock sheet.width sheet.last sheet.less sheet.names (map bar_of bars.now) (map column_of panel.now)) }
{
    let rows = numbers(alloc, sheet.less, panel)?;
    push_header(alloc, out, sheet.width, sheet.names, &rows)?;
    push_rows(alloc, out, sheet, panel, bars)
}
