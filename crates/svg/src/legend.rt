ghost use Rattle.std.specs.Prelude.{◌≡◌, ◌≤◌, ◌++◌, OnOk};
ghost use Rattle.svg.specs.Content.{Content, content_text};
ghost use Rattle.svg.specs.Held.{size_held};
ghost use Rattle.svg.specs.Legend.{meaning, bar_sample, mark_sample, dot_sample, arrow_sample, bars_legend, cancelled_legend, marks_legend, legend};

use crate::bars::{BLOCK, TASK};
use crate::layout::{LEFT, ROW, SAMPLE};
use crate::shapes::{Size, push_box, push_dot, push_line, push_use, push_words};
use std::alloc::AllocError;

// Appends the legend, whose first row begins at a y coordinate.
pub(crate) fn push_legend(out: &mut Vec<u8>, y: u64) -> Result<(), AllocError>
    requires { y ≤ 1000000 }
    ensures { OnOk result ((rest : Content) → out.new.items ++ content_text rest ≡ out.old.items ++ content_text (legend y rest)) }
{
    push_bars(out, y)?;
    push_cancelled(out, y + ROW)?;
    push_marks(out, y + ROW * 2)
}

// Appends the samples of bars.
fn push_bars(out: &mut Vec<u8>, y: u64) -> Result<(), AllocError>
    requires { y ≤ 2000000 }
    ensures { OnOk result ((rest : Content) → out.new.items ++ content_text rest ≡ out.old.items ++ content_text (bars_legend y rest)) }
{
    push_bar_sample(out, LEFT, y, TASK, b"task done", b"task")?;
    push_bar_sample(out, LEFT + SAMPLE, y, BLOCK, b"scope", b"scope")?;
    push_bar_sample(out, LEFT + SAMPLE * 2, y, BLOCK, b"nursery", b"nursery")
}

// Appends the samples of a shield, and of what is cancelled.
fn push_cancelled(out: &mut Vec<u8>, y: u64) -> Result<(), AllocError>
    requires { y ≤ 2000000 }
    ensures { OnOk result ((rest : Content) → out.new.items ++ content_text rest ≡ out.old.items ++ content_text (cancelled_legend y rest)) }
{
    push_bar_sample(out, LEFT, y, BLOCK, b"scope shield", b"with shield")?;
    push_bar_sample(out, LEFT + SAMPLE, y, BLOCK, b"from", b"cancelled part")?;
    push_mark_sample(out, LEFT + SAMPLE * 2, y, b"#cross", b"is cancelled")
}

// Appends the samples of the other marks, and of an arrow.
fn push_marks(out: &mut Vec<u8>, y: u64) -> Result<(), AllocError>
    requires { y ≤ 2000000 }
    ensures { OnOk result ((rest : Content) → out.new.items ++ content_text rest ≡ out.old.items ++ content_text (marks_legend y rest)) }
{
    push_dot_sample(out, LEFT, y, b"raises")?;
    push_mark_sample(out, LEFT + SAMPLE, y, b"#deadline", b"own deadline")?;
    push_arrow_sample(out, LEFT + SAMPLE * 2, y, b"cancels, or wakes")
}

// Appends a bar of a class, and what it means.
fn push_bar_sample(
    out: &mut Vec<u8>,
    x: u64,
    y: u64,
    size: Size,
    class: &[u8],
    bytes: &[u8],
) -> Result<(), AllocError>
    requires across { x ≤ 1000000 }
    requires down { y ≤ 2000000 }
    requires small { size.down ≤ 24 }
    ensures { OnOk result ((rest : Content) → out.new.items ++ content_text rest
        ≡ out.old.items ++ content_text (bar_sample x y (size_held size) class.now bytes.now rest)) }
{
    push_box(out, class, x, y + size.down, 24, size.height)?;
    push_meaning(out, x, y, bytes)
}

// Appends a mark of the definitions, and what it means.
fn push_mark_sample(
    out: &mut Vec<u8>,
    x: u64,
    y: u64,
    reference: &[u8],
    bytes: &[u8],
) -> Result<(), AllocError>
    requires across { x ≤ 1000000 }
    requires down { y ≤ 2000000 }
    ensures { OnOk result ((rest : Content) → out.new.items ++ content_text rest
        ≡ out.old.items ++ content_text (mark_sample x y reference.now bytes.now rest)) }
{
    push_use(out, reference, x + 12, y + 12)?;
    push_meaning(out, x, y, bytes)
}

// Appends a dot, and what it means.
fn push_dot_sample(out: &mut Vec<u8>, x: u64, y: u64, bytes: &[u8]) -> Result<(), AllocError>
    requires across { x ≤ 1000000 }
    requires down { y ≤ 2000000 }
    ensures { OnOk result ((rest : Content) → out.new.items ++ content_text rest
        ≡ out.old.items ++ content_text (dot_sample x y bytes.now rest)) }
{
    push_dot(out, x + 12, y + 12)?;
    push_meaning(out, x, y, bytes)
}

// Appends an arrow, and what it means.
fn push_arrow_sample(out: &mut Vec<u8>, x: u64, y: u64, bytes: &[u8]) -> Result<(), AllocError>
    requires across { x ≤ 1000000 }
    requires down { y ≤ 2000000 }
    ensures { OnOk result ((rest : Content) → out.new.items ++ content_text rest
        ≡ out.old.items ++ content_text (arrow_sample x y bytes.now rest)) }
{
    push_line(out, b"arrow", x, y + 12, x + 24, y + 12)?;
    push_meaning(out, x, y, bytes)
}

// Appends what the sample at a point means.
fn push_meaning(out: &mut Vec<u8>, x: u64, y: u64, bytes: &[u8]) -> Result<(), AllocError>
    requires across { x ≤ 1000000 }
    requires down { y ≤ 2000000 }
    ensures { OnOk result ((rest : Content) → out.new.items ++ content_text rest
        ≡ out.old.items ++ content_text (meaning x y bytes.now rest)) }
{
    push_words(out, b"note", x + 32, y + 16, bytes)
}
