//! `job_reader`: names given twice, uses of names that no block of that name and kind encloses, reserved names, and the sizes
//! of jobs.

use crate::fixtures::{word, wrong};
use job_reader::{given_twice, reserved_name, size_of, stray_use};
use job_syntax::Role;
use job_tokens::{Shape, Token};
use job_tree::{Ask, Body, Deadline, Handler, Name, ObjectKind, Step};
use std::alloc::Global;
use std::test::Fail;

// The token of a name at a place.
fn token(at: usize, name: Name) -> Token {
    Token {
        at,
        shape: Shape::Word(name),
    }
}

// A block of one step.
fn block(alloc: Global, step: Step) -> Result<Body, Fail> {
    let mut steps = Vec::new(alloc);
    steps.push(step)?;
    Ok(Body::new(steps))
}

// A block of two steps.
fn block_of_two(alloc: Global, first: Step, second: Step) -> Result<Body, Fail> {
    let mut steps = Vec::new(alloc);
    steps.push(first)?;
    steps.push(second)?;
    Ok(Body::new(steps))
}

// A scope of one step, without a deadline or a shield.
fn scope(alloc: Global, name: &[u8], step: Step) -> Result<Step, Fail> {
    let name = word(name)?;
    let body = block(alloc, step)?;
    Ok(Step::Scope {
        name,
        deadline: Deadline::Never,
        shield: false,
        fail: false,
        body,
    })
}

// A nursery that starts one child.
fn nursery(alloc: Global, child: &[u8], over: Option<u64>, step: Step) -> Result<Step, Fail> {
    let name = word(b"n")?;
    let child = word(child)?;
    let body = block(alloc, step)?;
    let start = Step::Start {
        name: child,
        over,
        body,
    };
    let body = block(alloc, start)?;
    Ok(Step::Nursery {
        name,
        deadline: Deadline::Never,
        shield: false,
        body,
    })
}

// The place where a use of that name is stray, which is at 9 after the job's name.
fn place_of_stray(body: &Body, name: &[u8]) -> Result<Option<usize>, Fail> {
    let tokens = [token(3, word(b"main")?), token(9, word(name)?)];
    let roles = [Role::Given, Role::Target];
    Ok(stray_use(body.as_slice(), &tokens, &roles))
}

// The place where a name is given twice among `a b a b`, of which the first two are given.
fn place_of_twice(alloc: Global, third: Role, fourth: Role) -> Result<Option<usize>, Fail> {
    let (a, b) = (word(b"a")?, word(b"b")?);
    let tokens = [token(0, a), token(2, b), token(4, a), token(6, b)];
    let roles = [Role::Given, Role::Given, third, fourth];
    Ok(given_twice(alloc, &tokens, &roles)?)
}

// The roles of the third and the fourth name, and where a name is given twice then.
const TWICE: &[(Role, Role, Option<usize>)] = &[
    (Role::Given, Role::Given, Some(4)),
    (Role::Raised, Role::Given, Some(6)),
    (Role::Raised, Role::Handled, None),
    (Role::Target, Role::Plain, None),
];

// Fails at the first row with another place.
fn twice_is_found(alloc: Global) -> Result<(), Fail> {
    for i in 0..TWICE.len() {
        let (third, fourth, wanted) = TWICE[i];
        if place_of_twice(alloc, third, fourth)? != wanted {
            return Err(wrong(i));
        }
    }
    Ok(())
}

#[test]
fn a_name_is_given_once(rt: HostRuntime) -> Result<(), Fail> {
    twice_is_found(rt.alloc())
}

// A `cancel` of a scope in a child that is started inside the scope.
fn across_a_start(alloc: Global) -> Result<Body, Fail> {
    let inner = nursery(alloc, b"t", None, Step::Cancel(word(b"s")?))?;
    let outer = scope(alloc, b"s", inner)?;
    block(alloc, outer)
}

// A `cancel` of a scope after the scope.
fn after_a_scope(alloc: Global) -> Result<Body, Fail> {
    let beside = scope(alloc, b"s", Step::Checkpoint)?;
    block_of_two(alloc, beside, Step::Cancel(word(b"s")?))
}

// A `cancel` of a child in the child.
fn in_a_child(alloc: Global) -> Result<Body, Fail> {
    let inner = nursery(alloc, b"t", None, Step::Cancel(word(b"t")?))?;
    block(alloc, inner)
}

#[test]
fn a_scope_is_cancelled_across_a_start(rt: HostRuntime) -> Result<(), Fail> {
    let steps = across_a_start(rt.alloc())?;
    assert!(rt; place_of_stray(&steps, b"s")? == None);
    Ok(())
}

#[test]
fn a_scope_beside_a_cancel_does_not_enclose_it(rt: HostRuntime) -> Result<(), Fail> {
    let steps = after_a_scope(rt.alloc())?;
    assert!(rt; place_of_stray(&steps, b"s")? == Some(9));
    Ok(())
}

#[test]
fn a_cancel_cannot_name_a_task(rt: HostRuntime) -> Result<(), Fail> {
    let steps = in_a_child(rt.alloc())?;
    assert!(rt; place_of_stray(&steps, b"t")? == Some(9));
    let steps = block(rt.alloc(), Step::Cancel(word(b"main")?))?;
    assert!(rt; place_of_stray(&steps, b"main")? == Some(9));
    Ok(())
}

// An event of one step.
fn event(alloc: Global, name: &[u8], step: Step) -> Result<Step, Fail> {
    let name = word(name)?;
    let body = block(alloc, step)?;
    Ok(Step::Event { name, body })
}

// A `wait` for an event in a child that is started inside the event.
fn wait_across_a_start(alloc: Global) -> Result<Body, Fail> {
    let inner = nursery(alloc, b"t", None, Step::Wait(word(b"e")?))?;
    let outer = event(alloc, b"e", inner)?;
    block(alloc, outer)
}

#[test]
fn an_event_is_waited_for_across_a_start(rt: HostRuntime) -> Result<(), Fail> {
    let steps = wait_across_a_start(rt.alloc())?;
    assert!(rt; place_of_stray(&steps, b"e")? == None);
    Ok(())
}

#[test]
fn a_scope_cannot_be_set(rt: HostRuntime) -> Result<(), Fail> {
    let inside = scope(rt.alloc(), b"s", Step::Set(word(b"s")?))?;
    let steps = block(rt.alloc(), inside)?;
    assert!(rt; place_of_stray(&steps, b"s")? == Some(9));
    Ok(())
}

#[test]
fn an_event_cannot_be_cancelled(rt: HostRuntime) -> Result<(), Fail> {
    let inside = event(rt.alloc(), b"e", Step::Cancel(word(b"e")?))?;
    let steps = block(rt.alloc(), inside)?;
    assert!(rt; place_of_stray(&steps, b"e")? == Some(9));
    Ok(())
}

// A limiter or channel of one step.
fn object(alloc: Global, kind: ObjectKind, step: Step) -> Result<Step, Fail> {
    let name = word(b"o")?;
    let body = block(alloc, step)?;
    Ok(Step::Object { name, kind, body })
}

// A step that asks for this, without steps of its own.
fn asking(alloc: Global, ask: Ask) -> Result<Step, Fail> {
    let name = word(b"o")?;
    let body = Body::new(Vec::new(alloc));
    Ok(Step::Ask { name, ask, body })
}

// A limiter or channel, and a child in it that asks for this.
fn ask_across_a_start(alloc: Global, kind: ObjectKind, ask: Ask) -> Result<Body, Fail> {
    let asked = asking(alloc, ask)?;
    let inner = nursery(alloc, b"t", None, asked)?;
    let outer = object(alloc, kind, inner)?;
    block(alloc, outer)
}

// A limiter or channel, what is asked of it, and where that is stray.
const ASKS: &[(ObjectKind, Ask, Option<usize>)] = &[
    (ObjectKind::Limiter(1), Ask::Acquire, None),
    (ObjectKind::Limiter(1), Ask::Send, Some(9)),
    (ObjectKind::Limiter(1), Ask::Receive, Some(9)),
    (ObjectKind::Channel(0), Ask::Acquire, Some(9)),
    (ObjectKind::Channel(0), Ask::Send, None),
    (ObjectKind::Channel(0), Ask::Receive, None),
];

// Fails at the first row with another place.
fn asks_are_found(alloc: Global) -> Result<(), Fail> {
    for i in 0..ASKS.len() {
        let (kind, ask, wanted) = ASKS[i];
        let steps = ask_across_a_start(alloc, kind, ask)?;
        if place_of_stray(&steps, b"o")? != wanted {
            return Err(wrong(i));
        }
    }
    Ok(())
}

#[test]
fn limiters_and_channels_are_asked_for_their_own(rt: HostRuntime) -> Result<(), Fail> {
    asks_are_found(rt.alloc())
}

#[test]
fn a_limiter_cannot_be_closed(rt: HostRuntime) -> Result<(), Fail> {
    let inside = object(rt.alloc(), ObjectKind::Limiter(1), Step::Close(word(b"o")?))?;
    let steps = block(rt.alloc(), inside)?;
    assert!(rt; place_of_stray(&steps, b"o")? == Some(9));
    Ok(())
}

// The place of a name that is reserved where its token at 5 has that role.
fn place_of_reserved(text: &[u8], role: Role) -> Result<Option<usize>, Fail> {
    let tokens = [token(5, word(text)?)];
    Ok(reserved_name(&tokens, &[role]))
}

// A name, its role, and where it is reserved.
const RESERVED: &[(&'static [u8], Role, Option<usize>)] = &[
    (b"TooSlow", Role::Handled, None),
    (b"TooSlow", Role::Raised, Some(5)),
    (b"TooSlow", Role::Given, Some(5)),
    (b"Cancelled", Role::Handled, Some(5)),
    (b"over", Role::Handled, Some(5)),
    (b"over", Role::Target, Some(5)),
    (b"over", Role::Plain, None),
    (b"Over", Role::Given, None),
    (b"event", Role::Given, None),
    (b"set", Role::Target, None),
    (b"wait", Role::Raised, None),
    (b"limiter", Role::Given, None),
    (b"send", Role::Target, None),
    (b"close", Role::Handled, None),
];

#[test]
fn reserved_names_are_refused_by_their_role() -> Result<(), Fail> {
    for i in 0..RESERVED.len() {
        let (text, role, wanted) = RESERVED[i];
        if place_of_reserved(text, role)? != wanted {
            return Err(wrong(i));
        }
    }
    Ok(())
}

// A block of three nested nurseries, each of which starts 64 children.
fn three_nurseries(alloc: Global) -> Result<Body, Fail> {
    let third = nursery(alloc, b"c", Some(64), Step::Sleep(1))?;
    let second = nursery(alloc, b"b", Some(64), third)?;
    let first = nursery(alloc, b"a", Some(64), second)?;
    block(alloc, first)
}

// A nursery that starts more children than there are numbers.
fn many_children(alloc: Global) -> Result<Body, Fail> {
    let many = nursery(alloc, b"a", Some(u64::MAX), Step::Checkpoint)?;
    block(alloc, many)
}

// A `try` with a handler and a cleanup, and a step after it.
fn attempt_and_checkpoint(alloc: Global) -> Result<Body, Fail> {
    let name = word(b"E")?;
    let body = block(alloc, Step::Checkpoint)?;
    let of_handler = block(alloc, Step::Checkpoint)?;
    let cleanup = block(alloc, Step::Checkpoint)?;
    let handler = Handler {
        name,
        body: of_handler,
    };
    let attempt = Step::Try {
        body,
        handler: Some(handler),
        cleanup: Some(cleanup),
    };
    block_of_two(alloc, attempt, Step::Checkpoint)
}

// The size of a block.
fn size_in(body: &Body) -> u64 {
    size_of(body.as_slice())
}

#[test]
fn copies_are_counted_up_to_the_maximum_u64(rt: HostRuntime) -> Result<(), Fail> {
    assert!(rt; size_in(&three_nurseries(rt.alloc())?) == 532_609);
    assert!(rt; size_in(&many_children(rt.alloc())?) == u64::MAX);
    assert!(rt; size_in(&attempt_and_checkpoint(rt.alloc())?) == 5);
    assert!(rt; size_of(&[]) == 0);
    Ok(())
}
