ghost use Rattle.std.specs.Prelude.{◌≡◌, ◌≤◌, ◌<◌, ◌∷◌, [], ◌++◌, codes, drop, map, take, IfOk, OnOk};
ghost use Rattle.job_tokens.specs.Shapes.{word_in};
ghost use Rattle.job_edits.specs.Numbers.{set_to};
ghost use Rattle.job_edits.specs.WrittenOut.{is_between, given_by, name_by, with_given, given_in, is_among, with_ending, endings, part, part_changes, earlier, single, left_after, later, written_out, steps_before, steps_in, written_at, is_in};

use crate::change::{Change, Piece, push_changed, rest_from};
use crate::repeated::RepeatedBlock;
use crate::waiting::Waiting;
use job_syntax::Role;
use job_tokens::Token;
use job_tree::Name;
use std::alloc::{AllocError, Global};

// A job text with its tokens and their roles.
#[derive(Clone, Copy)]
struct Parsed<'t> {
    text: &'t [u8],
    tokens: &'t [Token],
    roles: &'t [Role],
}

/// Returns whether a step that begins at this place is in a block that runs several times.
pub fn is_in(block: &RepeatedBlock, from: usize) -> bool
    ensures { result ≡ is_in block.now from }
{
    is_between(block.from, block.closing, from)
}

// Returns whether a place is from one place up to another.
fn is_between(from: usize, to: usize, at: usize) -> bool
    ensures { result ≡ is_between from to at }
{
    from <= at && at < to
}

/// Returns the job text with these tokens, which have these roles, in which one copy of a `start .. over`, or one pass of a
/// `repeat`, is written out. The copies or passes before it stay as they are, and their number is smaller. In the one that is
/// written out, and in those after it, the names that the block gives have an ending: `_2` in the copy with the index 2, and
/// `_after_2` in the later ones. Where a name is too long for that, or the text has a name with that ending already, the new text
/// is no job. The only error is that memory runs out.
pub fn written_out(
    alloc: Global,
    text: &[u8],
    tokens: &[Token],
    roles: &[Role],
    block: &RepeatedBlock,
    index: u64,
) -> Result<Vec<u8>, AllocError>
    ensures { IfOk result (λ out. out.items ≡ written_out text.now tokens.now roles.now block.now index) }
{
    let mut out = Vec::new(alloc);
    out.extend_from_slice(front_of(text, block.from))?;
    push_earlier(&mut out, text, block, index)?;
    let parsed = Parsed {
        text,
        tokens,
        roles,
    };
    push_single(alloc, &mut out, &parsed, block, index)?;
    push_later(alloc, &mut out, &parsed, block, index)?;
    out.extend_from_slice(rest_from(text, block.closing))?;
    Ok(out)
}

// Returns the first bytes of a text, up to a place.
fn front_of(text: &[u8], to: usize) -> &[u8]
    ensures { result.now ≡ take to text.now }
{
    text.split_at(to.min(text.len())).0
}

// Appends the head and the block up to its closing brace, with these changes.
fn push_part(
    out: &mut Vec<u8>,
    text: &[u8],
    block: &RepeatedBlock,
    changes: &[Change],
) -> Result<(), AllocError>
    ensures { OnOk result (out.new.items ≡ out.old.items ++ part text.now block.now changes.now) }
{
    push_changed(out, block.from, front_of(text, block.closing), changes)
}

// Appends the copies or passes before the one that is written out.
fn push_earlier(
    out: &mut Vec<u8>,
    text: &[u8],
    block: &RepeatedBlock,
    index: u64,
) -> Result<(), AllocError>
    ensures { OnOk result (out.new.items ≡ out.old.items ++ earlier text.now block.now index) }
{
    if index == 0 {
        return Ok(());
    }
    let count = count_change(block, index);
    push_part(out, text, block, &[count])?;
    out.extend_from_slice(b"} ")
}

// Returns the change of a head after which its block runs so often.
fn count_change(block: &RepeatedBlock, count: u64) -> Change
    ensures { result ≡ set_to block.now.number count }
{
    let number = block.number;
    number.set_to(count)
}

// Appends the one that is written out.
fn push_single(
    alloc: Global,
    out: &mut Vec<u8>,
    parsed: &Parsed<'_>,
    block: &RepeatedBlock,
    index: u64,
) -> Result<(), AllocError>
    ensures { OnOk result (out.new.items ≡ out.old.items ++ single parsed.now.text.now parsed.now.tokens.now parsed.now.roles.now block.now index) }
{
    let end = Piece::Single(index);
    let changes = part_changes(alloc, &end, 1, block, parsed)?;
    push_part(out, parsed.text, block, changes.as_slice())
}

// Appends the copies or passes after the one that is written out.
fn push_later(
    alloc: Global,
    out: &mut Vec<u8>,
    parsed: &Parsed<'_>,
    block: &RepeatedBlock,
    index: u64,
) -> Result<(), AllocError>
    ensures { OnOk result (out.new.items ≡ out.old.items ++ later parsed.now.text.now parsed.now.tokens.now parsed.now.roles.now block.now index) }
{
    let left = left_after(block, index);
    if left == 0 {
        return Ok(());
    }
    let end = Piece::After(index);
    let changes = part_changes(alloc, &end, left, block, parsed)?;
    out.extend_from_slice(b"} ")?;
    push_part(out, parsed.text, block, changes.as_slice())
}

// Returns how many copies or passes there are after one.
fn left_after(block: &RepeatedBlock, index: u64) -> u64
    ensures { result ≡ left_after block.now index }
{
    let count = block.number.value;
    count.saturating_sub(index).saturating_sub(1)
}

// Returns the changes of a part that runs so often, in which the names that the block gives have an ending.
fn part_changes(
    alloc: Global,
    end: &Piece,
    count: u64,
    block: &RepeatedBlock,
    parsed: &Parsed<'_>,
) -> Result<Vec<Change>, AllocError>
    ensures { IfOk result (λ changes. changes.items ≡ part_changes end.now count block.now parsed.now.tokens.now parsed.now.roles.now) }
{
    let (tokens, roles) = (parsed.tokens, parsed.roles);
    let given = given_in(alloc, block.from, block.closing, tokens, roles)?;
    let names = given.as_slice();
    let head = (block.from, block.number.from);
    let inside = (block.opening, block.closing);
    let mut changes = Vec::new(alloc);
    push_endings(&mut changes, end, names, head, tokens, roles)?;
    changes.push(count_change(block, count))?;
    push_endings(&mut changes, end, names, inside, tokens, roles)?;
    Ok(changes)
}

// Returns the names that are given from one place up to another.
fn given_in(
    alloc: Global,
    from: usize,
    to: usize,
    tokens: &[Token],
    roles: &[Role],
) -> Result<Vec<Name>, AllocError>
    ensures { IfOk result (λ names. names.items ≡ given_in from to tokens.now roles.now) }
{
    let mut names = Vec::new(alloc);
    let mut left = roles;
    'tokens: for token in tokens {
        let Some((role, others)) = left.split_first() else {
            return Ok(names);
        };
        push_given(&mut names, from, to, *token, *role)?;
        left = others;
    }
    Ok(names)
}

// Appends the name that a token gives, if it gives one and is from one place up to another.
fn push_given(
    names: &mut Vec<Name>,
    from: usize,
    to: usize,
    token: Token,
    role: Role,
) -> Result<(), AllocError>
    ensures { OnOk result (names.new.items
        ≡ names.old.items ++ with_given from to token.at (given_by role (word_in token.shape)) []) }
{
    let at = token.at;
    let Some(name) = given_by(role, token) else {
        return Ok(());
    };
    if is_between(from, to, at) {
        names.push(name)?;
    }
    Ok(())
}

// Returns the name that a token with a role gives, if it gives one.
fn given_by(role: Role, token: Token) -> Option<Name>
    ensures { result ≡ given_by role (word_in token.shape) }
{
    match role {
        Role::Given => token.shape.word(),
        _ => None,
    }
}

// Returns the name of a task, or of what a step opens, that a token with a role is.
fn name_by(role: Role, token: Token) -> Option<Name>
    ensures { result ≡ name_by role (word_in token.shape) }
{
    match role {
        Role::Given | Role::Target => token.shape.word(),
        _ => None,
    }
}

// Appends the changes that give these names an ending where they stand from one place up to another.
fn push_endings(
    changes: &mut Vec<Change>,
    end: &Piece,
    given: &[Name],
    places: (usize, usize),
    tokens: &[Token],
    roles: &[Role],
) -> Result<(), AllocError>
    ensures { OnOk result (changes.new.items
        ≡ changes.old.items ++ endings end.now given.now places.0 places.1 tokens.now roles.now) }
{
    let mut left = roles;
    'tokens: for token in tokens {
        let Some((role, others)) = left.split_first() else {
            return Ok(());
        };
        push_ending(changes, end, given, places, *token, *role)?;
        left = others;
    }
    Ok(())
}

// Appends the change that gives a token an ending, if it is one of these names and is from one place up to another.
fn push_ending(
    changes: &mut Vec<Change>,
    end: &Piece,
    given: &[Name],
    places: (usize, usize),
    token: Token,
    role: Role,
) -> Result<(), AllocError>
    ensures { OnOk result (changes.new.items ≡ changes.old.items
        ++ with_ending end.now given.now places.0 places.1 token.at (name_by role (word_in token.shape)) []) }
{
    let at = token.at;
    let Some(name) = name_by(role, token) else {
        return Ok(());
    };
    if is_between(places.0, places.1, at) && is_among(name, given) {
        let place = at.saturating_add(name.bytes().len());
        changes.push(Change {
            from: place,
            to: place,
            piece: *end,
        })?;
    }
    Ok(())
}

// Returns whether a name is one of these.
fn is_among(name: Name, names: &[Name]) -> bool
    ensures { result ≡ is_among name names.now }
{
    'names: for other in names {
        if name == *other {
            return true;
        }
    }
    false
}

/// Returns the number, counted from 0, of a step among the waiting steps of the text in which a copy or pass is written out that
/// the step is in. The step begins at `from` in the original text, which has these waiting steps.
pub fn written_at(block: &RepeatedBlock, index: u64, from: usize, steps: &[Waiting]) -> usize
    ensures { result ≡ written_at block.now index from steps.now }
{
    let before = steps_before(from, steps);
    if index == 0 {
        return before;
    }
    before.saturating_add(steps_in(block, steps))
}

// Returns how many of these steps are in a block.
fn steps_in(block: &RepeatedBlock, steps: &[Waiting]) -> usize
    ensures { result ≡ steps_in block.now steps.now }
{
    steps_before(block.closing, steps).saturating_sub(steps_before(block.from, steps))
}

// Returns how many of these steps begin before a place.
fn steps_before(place: usize, steps: &[Waiting]) -> usize
    ensures { result ≡ steps_before place steps.now }
{
    let mut count = 0;
    'steps: for step in steps {
        if step.from < place {
            count += 1;
        }
    }
    count
}
