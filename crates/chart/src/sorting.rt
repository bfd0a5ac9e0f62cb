ghost use Rattle.std.specs.Prelude.{◌≡◌, OnOk};
ghost use Rattle.basics.specs.Sorting.{sorted_by};
ghost use Rattle.chart.specs.Columns.{identity};

use std::alloc::{AllocError, Global};

// Sorts ticks.
pub(crate) fn sort_ticks(alloc: Global, ticks: &mut [u64]) -> Result<(), AllocError>
    ensures { OnOk result (ticks.new ≡ sorted_by identity ticks.old) }
{
    ticks.sort_by_key(alloc, |tick| *tick)
}
