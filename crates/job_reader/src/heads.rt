ghost use Rattle.std.specs.Prelude.{◌≡◌, ◌++◌, ◌∷◌, [], Some, OnOk};
ghost use Rattle.job_tree.specs.Blocks.{step_of};
ghost use Rattle.job_tokens.specs.declared.token.Shape.TheVariants as shape;
ghost use Rattle.job_syntax.specs.declared.keyword.Keyword.TheVariants as word;
ghost use Rattle.job_syntax.specs.declared.role.Role.TheVariants as role;
ghost use Rattle.job_syntax.specs.Keywords.{spelling_of};
ghost use Rattle.job_syntax.specs.Pieces.{keyword as keyword_piece, name_piece, number, string, object_word, count_of, ask_word, deadline_pieces, flag_pieces, over_pieces, passes_pieces};
ghost use Rattle.job_reader.specs.Heads.{head_onto};
ghost use Rattle.job_reader.specs.Printing.{Appends};

use job_syntax::Keyword;
use job_tokens::Shape;
use job_tree::{Ask, Deadline, Name, ObjectKind, Step, Text};
use std::alloc::AllocError;

/// Appends the head of a step, which is its tokens before its semicolon or its first block: its keyword, and what follows
/// the keyword. The only error is that memory runs out.
pub fn push_head(shapes: &mut Vec<Shape>, step: &Step) -> Result<(), AllocError>
    ensures { OnOk result (Appends (head_onto (step_of step.now)) shapes.old.items shapes.new.items) }
{
    match step {
        Step::Sleep(ticks) => push_counted(shapes, Keyword::Sleep, *ticks),
        Step::Checkpoint => push_keyword(shapes, Keyword::Checkpoint),
        Step::Forever => push_keyword(shapes, Keyword::Forever),
        Step::Pace(lines) => push_counted(shapes, Keyword::Pace, *lines),
        Step::Find(text) => push_with(shapes, Keyword::Find, Shape::Text(*text)),
        Step::Head(count) => push_counted(shapes, Keyword::Head, *count),
        Step::Longest => push_keyword(shapes, Keyword::Longest),
        Step::Need { text, name } => push_need(shapes, *text, *name),
        Step::Raise(name) => push_named(shapes, Keyword::Raise, *name),
        Step::Cancel(name) => push_named(shapes, Keyword::Cancel, *name),
        Step::Set(name) => push_named(shapes, Keyword::Set, *name),
        Step::Wait(name) => push_named(shapes, Keyword::Wait, *name),
        Step::Ask { name, ask, .. } => push_named(shapes, ask_word(*ask), *name),
        Step::Close(name) => push_named(shapes, Keyword::Close, *name),
        Step::Scope {
            name,
            deadline,
            shield,
            fail,
            ..
        } => {
            push_block_head(shapes, Keyword::Scope, *name, *deadline, *shield)?;
            push_flag(shapes, Keyword::Fail, *fail)?;
            Ok(())
        }
        Step::Nursery {
            name,
            deadline,
            shield,
            ..
        } => push_block_head(shapes, Keyword::Nursery, *name, *deadline, *shield),
        Step::Event { name, .. } => push_named(shapes, Keyword::Event, *name),
        Step::Object { name, kind, .. } => push_object_head(shapes, *name, kind),
        Step::Start { name, over, .. } => push_start_head(shapes, *name, *over),
        Step::Repeat { count, over, .. } => push_repeat_head(shapes, *count, *over),
        Step::Try { .. } => push_keyword(shapes, Keyword::Try),
    }
}

// Appends the head of a `need`.
fn push_need(shapes: &mut Vec<Shape>, text: Text, name: Name) -> Result<(), AllocError>
    ensures { OnOk result (Appends (λ rest. keyword_piece word.Need ∷ string text ∷ name_piece role.Raised name ∷ rest)
        shapes.old.items shapes.new.items) }
{
    push_with(shapes, Keyword::Need, Shape::Text(text))?;
    shapes.push(Shape::Word(name))?;
    Ok(())
}

// Appends the head of a limiter or channel.
fn push_object_head(
    shapes: &mut Vec<Shape>,
    name: Name,
    kind: &ObjectKind,
) -> Result<(), AllocError>
    ensures { OnOk result (Appends (λ rest. keyword_piece (object_word kind.now) ∷ name_piece role.Given name ∷ number (count_of kind.now)
        ∷ rest) shapes.old.items shapes.new.items) }
{
    push_named(shapes, object_word(*kind), name)?;
    shapes.push(Shape::Number(Some(count_of(*kind))))?;
    Ok(())
}

// Returns the keyword of a limiter or channel.
fn object_word(kind: ObjectKind) -> Keyword
    ensures { result ≡ object_word kind }
{
    match kind {
        ObjectKind::Limiter(_) => Keyword::Limiter,
        ObjectKind::Channel(_) => Keyword::Channel,
    }
}

// Returns how many tokens or places it has.
fn count_of(kind: ObjectKind) -> u64
    ensures { result ≡ count_of kind }
{
    match kind {
        ObjectKind::Limiter(tokens) => tokens,
        ObjectKind::Channel(places) => places,
    }
}

// Returns the keyword of a step that asks for something.
fn ask_word(ask: Ask) -> Keyword
    ensures { result ≡ ask_word ask }
{
    match ask {
        Ask::Acquire => Keyword::Acquire,
        Ask::Send => Keyword::Send,
        Ask::Receive => Keyword::Receive,
    }
}

// Appends what the heads of a scope and of a nursery have in common: the keyword, the name, the deadline and the shield.
fn push_block_head(
    shapes: &mut Vec<Shape>,
    keyword: Keyword,
    name: Name,
    deadline: Deadline,
    shield: bool,
) -> Result<(), AllocError>
    ensures { OnOk result (Appends (λ rest. keyword_piece keyword ∷ name_piece role.Given name
        ∷ deadline_pieces deadline (flag_pieces word.Shield shield rest)) shapes.old.items shapes.new.items) }
{
    push_named(shapes, keyword, name)?;
    push_deadline(shapes, deadline)?;
    push_flag(shapes, Keyword::Shield, shield)?;
    Ok(())
}

// Appends the head of a `start`.
fn push_start_head(shapes: &mut Vec<Shape>, name: Name, over: Option<u64>) -> Result<(), AllocError>
    ensures { OnOk result (Appends (λ rest. keyword_piece word.Start ∷ name_piece role.Given name ∷ over_pieces over rest)
        shapes.old.items shapes.new.items) }
{
    push_named(shapes, Keyword::Start, name)?;
    push_over(shapes, over)?;
    Ok(())
}

fn push_repeat_head(shapes: &mut Vec<Shape>, count: u64, over: bool) -> Result<(), AllocError>
    ensures { OnOk result (Appends (λ rest. keyword_piece word.Repeat ∷ passes_pieces over count rest) shapes.old.items shapes.new.items) }
{
    if over {
        push_keyword(shapes, Keyword::Repeat)?;
        push_counted(shapes, Keyword::Over, count)
    } else {
        push_counted(shapes, Keyword::Repeat, count)
    }
}

/// Appends a keyword as a token. The only error is that memory runs out.
pub fn push_keyword(shapes: &mut Vec<Shape>, keyword: Keyword) -> Result<(), AllocError>
    ensures { OnOk result (shapes.new.items ≡ shapes.old.items ++ shape.Word (spelling_of keyword) ∷ []) }
{
    let Some(word) = Name::new(keyword.bytes()) else {
        unreachable!();
    };
    shapes.push(Shape::Word(word))?;
    Ok(())
}

// Appends a keyword and the token after it.
fn push_with(shapes: &mut Vec<Shape>, keyword: Keyword, operand: Shape) -> Result<(), AllocError>
    ensures { OnOk result (shapes.new.items ≡ shapes.old.items ++ shape.Word (spelling_of keyword) ∷ operand ∷ []) }
{
    push_keyword(shapes, keyword)?;
    shapes.push(operand)?;
    Ok(())
}

/// Appends a keyword and the name after it. The only error is that memory runs out.
pub fn push_named(shapes: &mut Vec<Shape>, keyword: Keyword, name: Name) -> Result<(), AllocError>
    ensures { OnOk result (shapes.new.items ≡ shapes.old.items ++ shape.Word (spelling_of keyword) ∷ shape.Word name ∷ []) }
{
    push_with(shapes, keyword, Shape::Word(name))
}

// Appends a keyword and the number after it.
fn push_counted(shapes: &mut Vec<Shape>, keyword: Keyword, count: u64) -> Result<(), AllocError>
    ensures { OnOk result (shapes.new.items ≡ shapes.old.items ++ shape.Word (spelling_of keyword) ∷ shape.Number (Some count) ∷ []) }
{
    push_with(shapes, keyword, Shape::Number(Some(count)))
}

fn push_deadline(shapes: &mut Vec<Shape>, deadline: Deadline) -> Result<(), AllocError>
    ensures { OnOk result (Appends (deadline_pieces deadline) shapes.old.items shapes.new.items) }
{
    match deadline {
        Deadline::Never => Ok(()),
        Deadline::After(ticks) => push_counted(shapes, Keyword::After, ticks),
        Deadline::At(tick) => push_counted(shapes, Keyword::At, tick),
    }
}

// Appends an optional keyword.
fn push_flag(shapes: &mut Vec<Shape>, keyword: Keyword, stands: bool) -> Result<(), AllocError>
    ensures { OnOk result (Appends (flag_pieces keyword stands) shapes.old.items shapes.new.items) }
{
    if stands {
        push_keyword(shapes, keyword)?;
    }
    Ok(())
}

// Appends the number of copies that are started.
fn push_over(shapes: &mut Vec<Shape>, over: Option<u64>) -> Result<(), AllocError>
    ensures { OnOk result (Appends (over_pieces over) shapes.old.items shapes.new.items) }
{
    match over {
        None => Ok(()),
        Some(copies) => push_counted(shapes, Keyword::Over, copies),
    }
}
