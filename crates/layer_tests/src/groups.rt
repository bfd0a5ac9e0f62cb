//! `exceptions`: splits of exceptions and groups, copies, and the labels of what raised them.

use crate::fixtures::{label, push_bytes, push_exc, push_label, raised_exc, same, word};
use exceptions::{Exc, Label, Match, Parts, Whose, group, holds_cancelled, split};
use std::alloc::{AllocError, Global};
use std::test::Fail;

// The origin of a nursery's group.
fn nursery(alloc: Global, name: &[u8]) -> Result<Whose, Fail> {
    let label = label(alloc, name)?;
    Ok(Whose::Nursery(label))
}

// The nursery's group of two exceptions.
fn group_of_two(alloc: Global, name: &[u8], first: Exc, second: Exc) -> Result<Exc, Fail> {
    let whose = nursery(alloc, name)?;
    let mut parts = Vec::new(alloc);
    parts.push(first)?;
    parts.push(second)?;
    match group(whose, parts) {
        Some(exc) => Ok(exc),
        None => Err("no group")?,
    }
}

// Appends one side of a split: no bytes if it is empty.
fn push_side(text: &mut Vec<u8>, side: &Option<Exc>) -> Result<(), AllocError> {
    if let Some(exc) = side {
        push_exc(text, exc)?;
    }
    Ok(())
}

// The two sides of a split, about which nothing else is known here.
fn split_in_two(
    alloc: Global,
    exc: Exc,
    wanted: Match,
) -> Result<(Option<Exc>, Option<Exc>), AllocError> {
    let sides = split(alloc, exc, &wanted)?;
    Ok(sides)
}

// The texts of two sides, with a bar between them.
fn text_of_sides(
    alloc: Global,
    kept: &Option<Exc>,
    dropped: &Option<Exc>,
) -> Result<Vec<u8>, AllocError> {
    let mut text = Vec::new(alloc);
    push_side(&mut text, kept)?;
    push_bytes(&mut text, b"|")?;
    push_side(&mut text, dropped)?;
    Ok(text)
}

// The texts of the two sides of a split.
fn sides(alloc: Global, exc: Exc, wanted: Match) -> Result<Vec<u8>, AllocError> {
    let (kept, dropped) = split_in_two(alloc, exc, wanted)?;
    text_of_sides(alloc, &kept, &dropped)
}

// A group of what was raised and of `Cancelled`.
fn group_with_cancelled(alloc: Global) -> Result<Exc, Fail> {
    let raised = raised_exc(alloc, b"A", b"a")?;
    group_of_two(alloc, b"n", raised, Exc::Cancelled)
}

// The two sides of a group that is split by `Cancelled`.
fn sides_by_cancelled(alloc: Global) -> Result<Vec<u8>, Fail> {
    let exc = group_with_cancelled(alloc)?;
    let text = sides(alloc, exc, Match::Cancelled)?;
    Ok(text)
}

#[test]
fn groups_split_by_cancelled(rt: HostRuntime) -> Result<(), Fail> {
    let found = sides_by_cancelled(rt.alloc())?;
    same(found.as_slice(), b"n[!;]|n[A@a@0;]")
}

// The two sides of an exception `A` that is split by a name.
fn sides_by_name(alloc: Global, name: &[u8]) -> Result<Vec<u8>, Fail> {
    let wanted = Match::Name(word(name)?);
    let exc = raised_exc(alloc, b"A", b"a")?;
    Ok(sides(alloc, exc, wanted)?)
}

#[test]
fn leaves_split_by_name(rt: HostRuntime) -> Result<(), Fail> {
    let other = sides_by_name(rt.alloc(), b"B")?;
    same(other.as_slice(), b"|A@a@0")?;
    let its_own = sides_by_name(rt.alloc(), b"A")?;
    same(its_own.as_slice(), b"A@a@0|")
}

// The two sides of a `TooSlow` that is split by its name.
fn sides_of_too_slow(alloc: Global) -> Result<Vec<u8>, Fail> {
    let wanted = Match::Name(word(b"TooSlow")?);
    let exc = Exc::TooSlow {
        scope: label(alloc, b"s")?,
        tick: 2,
    };
    Ok(sides(alloc, exc, wanted)?)
}

#[test]
fn too_slow_has_its_name(rt: HostRuntime) -> Result<(), Fail> {
    let found = sides_of_too_slow(rt.alloc())?;
    same(found.as_slice(), b"@s@2|")
}

// A copy of an exception, about which nothing else is known here.
fn copy_of(alloc: Global, exc: &Exc) -> Result<Exc, AllocError> {
    let copy = exc.copy(alloc)?;
    Ok(copy)
}

// The texts of two exceptions, with a bar between them.
fn text_of_two(alloc: Global, first: &Exc, second: &Exc) -> Result<Vec<u8>, AllocError> {
    let mut text = Vec::new(alloc);
    push_exc(&mut text, first)?;
    push_bytes(&mut text, b"|")?;
    push_exc(&mut text, second)?;
    Ok(text)
}

// The texts of an exception and of its copy.
fn text_with_copy(alloc: Global, exc: &Exc) -> Result<Vec<u8>, AllocError> {
    let copy = copy_of(alloc, exc)?;
    text_of_two(alloc, exc, &copy)
}

// The texts of a group and of its copy.
fn text_of_copies(alloc: Global) -> Result<Vec<u8>, Fail> {
    let exc = group_with_cancelled(alloc)?;
    let text = text_with_copy(alloc, &exc)?;
    Ok(text)
}

#[test]
fn copies_are_equal(rt: HostRuntime) -> Result<(), Fail> {
    let found = text_of_copies(rt.alloc())?;
    same(found.as_slice(), b"n[A@a@0;!;]|n[A@a@0;!;]")
}

// The label of that name with one index, about which nothing else is known here.
fn label_with_index(alloc: Global, name: &[u8], index: u64) -> Result<Label, Fail> {
    Ok(label(alloc, name)?.with_index(index)?)
}

// A copy of a label.
fn same_label(alloc: Global, label: &Label) -> Result<Label, AllocError> {
    let copy = label.copy(alloc)?;
    Ok(copy)
}

// The label of another name.
fn label_with_name(alloc: Global, label: &Label, name: &[u8]) -> Result<Label, Fail> {
    Ok(label.with_name(alloc, word(name)?)?)
}

// The texts of three labels, with a space between them.
fn text_of_three(
    alloc: Global,
    first: &Label,
    second: &Label,
    third: &Label,
) -> Result<Vec<u8>, AllocError> {
    let mut text = Vec::new(alloc);
    push_label(&mut text, first)?;
    push_bytes(&mut text, b" ")?;
    push_label(&mut text, second)?;
    push_bytes(&mut text, b" ")?;
    push_label(&mut text, third)?;
    Ok(text)
}

// The texts of a label, of its copy, and of one of another name.
fn text_with_others(alloc: Global, first: &Label) -> Result<Vec<u8>, Fail> {
    let copy = same_label(alloc, first)?;
    let other = label_with_name(alloc, first, b"q")?;
    let text = text_of_three(alloc, first, &copy, &other)?;
    Ok(text)
}

// The texts of a label with an index, of its copy, and of one of another name.
fn text_of_labels(alloc: Global) -> Result<Vec<u8>, Fail> {
    let first = label_with_index(alloc, b"p", 1)?;
    text_with_others(alloc, &first)
}

#[test]
fn labels_keep_their_indices(rt: HostRuntime) -> Result<(), Fail> {
    let found = text_of_labels(rt.alloc())?;
    same(found.as_slice(), b"p.1 p.1 q.1")
}

#[test]
fn group_of_no_parts(rt: HostRuntime) -> Result<(), Fail> {
    let alloc = rt.alloc();
    assert!(rt; group(nursery(alloc, b"n")?, Vec::new(alloc)).is_none());
    Ok(())
}

// A group of `Cancelled` alone.
fn group_of_cancelled(alloc: Global) -> Result<Exc, Fail> {
    let whose = nursery(alloc, b"m")?;
    let mut parts = Vec::new(alloc);
    parts.push(Exc::Cancelled)?;
    Ok(Exc::Group {
        whose,
        parts: Parts::new(parts),
    })
}

// A group of what was raised and of a group that holds `Cancelled`.
fn nested_group(alloc: Global) -> Result<Exc, Fail> {
    let inner = group_of_cancelled(alloc)?;
    let raised = raised_exc(alloc, b"A", b"a")?;
    group_of_two(alloc, b"n", raised, inner)
}

// Whether the nested group and what was raised alone hold `Cancelled`.
fn hold_cancelled(alloc: Global) -> Result<(bool, bool), Fail> {
    let exc = nested_group(alloc)?;
    let in_group = holds_cancelled(&exc);
    let exc = raised_exc(alloc, b"A", b"a")?;
    Ok((in_group, holds_cancelled(&exc)))
}

#[test]
fn cancelled_below_a_nested_group(rt: HostRuntime) -> Result<(), Fail> {
    assert!(rt; hold_cancelled(rt.alloc())? == (true, false));
    Ok(())
}
