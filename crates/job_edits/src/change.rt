ghost use Rattle.std.specs.Prelude.{◌≡◌, ◌-◌, ◌++◌, take, drop, decimal, IfOk, OnOk};
ghost use Rattle.job_edits.specs.declared.change.Piece.TheVariants as piece;
ghost use Rattle.job_edits.specs.Changes.{piece_text, changed_from, changed_text};

use crate::waiting::push_counted;
use basics::push_number;
use job_tree::Name;
use std::alloc::{AllocError, Global};

/// What a change puts into a job text.
#[derive(Clone, Copy)]
pub enum Piece {
    /// A step that raises an exception with this name, in place of another step.
    Raise(Name),
    /// A step that raises an exception with this name, with its semicolon, before another step.
    RaiseBefore(Name),
    /// A step that raises an exception with this name, after another step and before the semicolon of that step.
    ThenRaise(Name),
    /// A step that raises an exception with this name, with its semicolon, at the start of a block.
    RaiseFirst(Name),
    /// A step that waits forever, in place of another step.
    Forever,
    /// A step that waits forever, with its semicolon, before another step.
    ForeverBefore,
    /// A step that cancels the scope with this name, before another step.
    Cancel(Name),
    /// The start of a block whose first step is a scope with this name, before the opening brace of a block. That block becomes
    /// the body of the scope.
    OpenScope(Name),
    /// A closing brace. It comes before another closing brace, or after a step.
    Close,
    /// A number, in place of another number.
    Number(u64),
    /// A step that sleeps for the given number of ticks, in place of another step. The semicolon of that step follows it.
    Sleep(u64),
    /// A step that sleeps for the given number of ticks, with its semicolon, before another step.
    SleepBefore(u64),
    /// A step that sleeps for the given number of ticks, with its semicolon, after another step or at the start of a block.
    ThenSleep(u64),
    /// A shielded scope with this name, in which a step sleeps for the given number of ticks, before another step or at the end
    /// of a block.
    ShieldedSleep(Name, u64),
    /// The start of a `repeat` with the given number of passes, before a step.
    OpenRepeat(u64),
    /// The ending of a name in a copy or pass with this index, which is written out.
    Single(u64),
    /// The ending of a name in the copies or passes after the one with this index.
    After(u64),
}

/// A change of a text: a piece in place of the bytes from one place up to another. Places are in bytes from the start of the
/// original text.
#[derive(Clone, Copy)]
pub struct Change {
    /// The place of the first byte that is left out.
    pub from: usize,
    /// The place after the last byte that is left out. If it equals `from`, no byte is left out.
    pub to: usize,
    /// What is put in place of these bytes.
    pub piece: Piece,
}

/// Returns the text with these changes: each piece is at its place, and all other bytes of the text are unchanged. The changes
/// must be in the order of their places and must not overlap. The only error is that memory runs out.
pub fn changed_text(alloc: Global, text: &[u8], changes: &[Change]) -> Result<Vec<u8>, AllocError>
    ensures { IfOk result (λ out. out.items ≡ changed_text text.now changes.now) }
{
    let mut out = Vec::new(alloc);
    push_changed(&mut out, 0, text, changes)?;
    Ok(out)
}

// Appends the text from a place on, with these changes.
pub(crate) fn push_changed(
    out: &mut Vec<u8>,
    from: usize,
    text: &[u8],
    changes: &[Change],
) -> Result<(), AllocError>
    ensures { OnOk result (out.new.items ≡ out.old.items ++ changed_from from text.now changes.now) }
{
    let mut at = from;
    'changes: for change in changes {
        push_between(out, text, at, change.from)?;
        push_piece(out, change.piece)?;
        at = change.to;
    }
    out.extend_from_slice(rest_from(text, at))
}

// Returns the bytes from a place on.
pub(crate) fn rest_from(text: &[u8], at: usize) -> &[u8]
    ensures { result.now ≡ drop at text.now }
{
    text.split_at(at.min(text.len())).1
}

// Appends the bytes from one place up to another, or nothing if `to` is before `from`.
fn push_between(out: &mut Vec<u8>, text: &[u8], from: usize, to: usize) -> Result<(), AllocError>
    ensures { OnOk result (out.new.items ≡ out.old.items ++ take (to - from) (drop from text.now)) }
{
    let rest = rest_from(text, from);
    let len = to.saturating_sub(from).min(rest.len());
    out.extend_from_slice(rest.split_at(len).0)
}

// Appends a piece.
fn push_piece(out: &mut Vec<u8>, piece: Piece) -> Result<(), AllocError>
    ensures { OnOk result (out.new.items ≡ out.old.items ++ piece_text piece) }
{
    match piece {
        Piece::Raise(name) => push_named(out, b"raise ", name),
        Piece::RaiseBefore(name) => push_named_step(out, b"raise ", name, b"; "),
        Piece::ThenRaise(name) => push_named(out, b"; raise ", name),
        Piece::RaiseFirst(name) => push_named_step(out, b" raise ", name, b";"),
        Piece::Forever => out.extend_from_slice(b"forever"),
        Piece::ForeverBefore => out.extend_from_slice(b"forever; "),
        Piece::Cancel(name) => push_named_step(out, b"cancel ", name, b"; "),
        Piece::OpenScope(name) => push_named_step(out, b"{ scope ", name, b" "),
        Piece::Close => out.extend_from_slice(b" }"),
        Piece::Number(n) => push_number(out, n),
        Piece::Sleep(n) => push_counted(out, b"sleep ", n),
        Piece::SleepBefore(n) => push_counted_step(out, b"sleep ", n, b"; "),
        Piece::ThenSleep(n) => push_counted_step(out, b" sleep ", n, b";"),
        Piece::ShieldedSleep(name, n) => push_shielded(out, name, n),
        Piece::OpenRepeat(n) => push_counted_step(out, b"repeat ", n, b" { "),
        Piece::Single(n) => push_counted(out, b"_", n),
        Piece::After(n) => push_counted(out, b"_after_", n),
    }
}

// Appends a shielded scope in which a step sleeps for some ticks.
fn push_shielded(out: &mut Vec<u8>, name: Name, n: u64) -> Result<(), AllocError>
    ensures { OnOk result (out.new.items ≡ out.old.items ++ piece_text (piece.ShieldedSleep name n)) }
{
    push_named(out, b"scope ", name)?;
    out.extend_from_slice(b" shield { sleep ")?;
    push_number(out, n)?;
    out.extend_from_slice(b"; } ")
}

// Appends some words, a name, and what ends them.
fn push_named_step(
    out: &mut Vec<u8>,
    words: &[u8],
    name: Name,
    end: &[u8],
) -> Result<(), AllocError>
    ensures { OnOk result (out.new.items ≡ out.old.items ++ (words.now ++ name ++ end.now)) }
{
    push_named(out, words, name)?;
    out.extend_from_slice(end)
}

// Appends some words, a number, and what ends them.
fn push_counted_step(out: &mut Vec<u8>, words: &[u8], n: u64, end: &[u8]) -> Result<(), AllocError>
    ensures { OnOk result (out.new.items ≡ out.old.items ++ (words.now ++ decimal n ++ end.now)) }
{
    push_counted(out, words, n)?;
    out.extend_from_slice(end)
}

// Appends some words and a name.
pub(crate) fn push_named(out: &mut Vec<u8>, words: &[u8], name: Name) -> Result<(), AllocError>
    ensures { OnOk result (out.new.items ≡ out.old.items ++ (words.now ++ name)) }
{
    out.extend_from_slice(words)?;
    out.extend_from_slice(name.bytes())
}
