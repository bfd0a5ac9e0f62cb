//! Worked jobs with the warnings that they have, each with twins that have none. The expected lines are worked out by hand.

use job_lint::{Warning, lints, sentence};
use job_reader::{JobFault, JobKind};
use std::alloc::{AllocError, Global};
use std::test::Fail;

// A job text, and a line for each warning: its place, a blank and its sentence.
type Row = (&'static [u8], &'static [u8]);

// Steps after one that never ends without an exception: the first of them alone.
const UNREACHABLE: &[Row] = &[
    (
        b"trio-job 1\njob m{forever;sleep 1;sleep 2;}",
        b"25 this step never runs: the step before it never ends well\n",
    ),
    (
        b"trio-job 1\njob m{raise A;try{longest;}finally{}}",
        b"25 this step never runs: the step before it never ends well\n",
    ),
    (b"trio-job 1\njob m{sleep 1;forever;}", b""),
    (b"trio-job 1\njob m{scope s after 1{forever;}sleep 1;}", b""),
];

// Waits in a cleanup.
const EXPOSED: &[Row] = &[
    (
        b"trio-job 1\njob m{try{sleep 1;}finally{sleep 2;}}",
        b"38 a cleanup that waits here is cut off when its task is cancelled: put the wait into a scope with a deadline and `shield`\n",
    ),
    (
        b"trio-job 1\njob m{try{}finally{scope s after 9 shield{try{}finally{checkpoint;}}}}",
        b"66 a cleanup that waits here is cut off when its task is cancelled: put the wait into a scope with a deadline and `shield`\n",
    ),
    (
        b"trio-job 1\njob m{try{sleep 1;}finally{scope s after 5 shield{sleep 2;}}}",
        b"",
    ),
    (b"trio-job 1\njob m{try{sleep 1;}finally{longest;}}", b""),
];

// Exceptions raised in a cleanup.
const RAISED: &[Row] = &[
    (
        b"trio-job 1\njob m{try{sleep 1;}finally{raise A;}}",
        b"38 an exception raised in a cleanup replaces the one that the cleanup began with\n",
    ),
    (
        b"trio-job 1\njob m{try{}finally{scope s after 5 shield{raise A;}}}",
        b"53 an exception raised in a cleanup replaces the one that the cleanup began with\n",
    ),
    (b"trio-job 1\njob m{try{raise A;}except A{raise B;}}", b""),
];

// Shields without a deadline.
const SHIELDS: &[Row] = &[
    (
        b"trio-job 1\njob m{scope s shield{sleep 1;}}",
        b"17 nothing outside can cancel a wait in this shield: give it a deadline\n",
    ),
    (
        b"trio-job 2\njob m{nursery n shield{start a{repeat 2{checkpoint;}}}}",
        b"17 nothing outside can cancel a wait in this shield: give it a deadline\n",
    ),
    (b"trio-job 1\njob m{scope s after 2 shield{sleep 1;}}", b""),
    (
        b"trio-job 1\njob m{scope s shield{scope t at 1{sleep 1;}}}",
        b"",
    ),
    (b"trio-job 1\njob m{scope s shield{longest;}}", b""),
];

// Scopes that nothing cancels.
const SCOPES: &[Row] = &[
    (
        b"trio-job 1\njob m{scope s{sleep 1;}}",
        b"17 nothing cancels the scope s: it has no deadline, and no `cancel s` is in it\n",
    ),
    (
        b"trio-job 1\njob m{nursery n{start a{scope s{sleep 1;}}}}",
        b"35 nothing cancels the scope s: it has no deadline, and no `cancel s` is in it\n",
    ),
    (b"trio-job 1\njob m{scope s{cancel s;}}", b""),
    // Whatever is around a scope with `fail`, nothing makes it fail.
    (
        b"trio-job 1\njob m{scope s after 9{scope t fail{raise A;}}}",
        b"33 nothing cancels the scope t: it has no deadline, and no `cancel t` is in it\n",
    ),
    // The tick in which a scope is left says something if it may be left early: by an exception in it, or a cancellation around
    // it.
    (b"trio-job 1\njob m{scope s{need \"x\" A;}}", b""),
    (b"trio-job 1\njob m{scope s{try{raise A;}except A{}}}", b""),
    (
        b"trio-job 1\njob m{scope s after 9{scope t{sleep 1;}}}",
        b"",
    ),
    (
        b"trio-job 1\njob m{scope s{scope t{nursery n{start a{cancel s;}}}}}",
        b"",
    ),
    (
        b"trio-job 3\njob m{nursery n{start a{repeat 9{scope due{sleep 3;}}}start b{sleep 7;cancel n;}}}",
        b"",
    ),
    (
        b"trio-job 1\njob m{nursery n{start a{scope s{sleep 1;}}start b{raise A;}}}",
        b"",
    ),
    // A shield hides what is around it.
    (
        b"trio-job 1\njob m{scope s after 9{scope t shield{scope u{longest;}}}}",
        b"48 nothing cancels the scope u: it has no deadline, and no `cancel u` is in it\n",
    ),
    (b"trio-job 1\njob m{nursery n{start a{sleep 1;}}}", b""),
];

// Handlers of what nothing raises.
const HANDLERS: &[Row] = &[
    (
        b"trio-job 1\njob m{try{sleep 1;}except A{sleep 2;}}",
        b"30 nothing in this `try` raises A, so its handler never runs\n",
    ),
    (
        b"trio-job 1\njob m{try{scope s after 1{sleep 2;}}except TooSlow{longest;}}",
        b"47 no scope in this `try` has `fail`, so nothing raises TooSlow and its handler never runs\n",
    ),
    (
        b"trio-job 1\njob m{try{need \"x\" A;}except A{sleep 2;}}",
        b"",
    ),
    (
        b"trio-job 1\njob m{try{scope s after 1 fail{sleep 2;}}except TooSlowError{}}",
        b"52 nothing in this `try` raises TooSlowError: a scope with `fail` raises TooSlow, which `except TooSlow` handles\n",
    ),
    (
        b"trio-job 1\njob m{try{raise A;}except Exception{}}",
        b"30 nothing in this `try` raises Exception: a handler has the name of one exception, and handles no other\n",
    ),
    (
        b"trio-job 1\njob m{try{raise A;}except ExceptionGroup{}}",
        b"30 nothing in this `try` raises ExceptionGroup: a handler has the name of an exception, and handles all of that name in a group\n",
    ),
    (
        b"trio-job 1\njob m{try{raise Exception;}except Exception{}}",
        b"",
    ),
    (
        b"trio-job 1\njob m{try{nursery n{start a{try{}finally{raise A;}}}}except A{}}",
        b"52 an exception raised in a cleanup replaces the one that the cleanup began with\n",
    ),
    (
        b"trio-job 1\njob m{try{scope s after 1 fail{sleep 2;}}except TooSlow{longest;}}",
        b"",
    ),
];

// Events that nothing sets, or that nothing waits for; a wait for an event in a cleanup; and names that are spelled as keywords.
const EVENTS: &[Row] = &[
    (
        b"trio-job 3\njob m{event e{nursery n{start a{wait e;}}}}",
        b"17 nothing sets the event e: no `set e` is in it\n",
    ),
    (
        b"trio-job 3\njob m{event e{set e;}}",
        b"17 nothing waits for the event e: no `wait e` is in it\n",
    ),
    (
        b"trio-job 3\njob m{event e{}}",
        b"17 nothing sets the event e: no `set e` is in it\n",
    ),
    (b"trio-job 3\njob m{event e{set e;wait e;sleep 1;}}", b""),
    (
        b"trio-job 3\njob m{event e{nursery n{repeat 2{start a{wait e;}}set e;}}}",
        b"",
    ),
    (
        b"trio-job 3\njob m{event e{set e;try{}finally{wait e;}}}",
        b"44 a cleanup that waits here is cut off when its task is cancelled: put the wait into a scope with a deadline and `shield`\n",
    ),
    (
        b"trio-job 3\njob set{event wait{set wait;wait wait;raise event;sleep 1;}}",
        b"61 this step never runs: the step before it never ends well\n",
    ),
];

// Limiters of which nothing asks for a token, or whose tokens are asked for in both orders.
const LIMITERS: &[Row] = &[
    (
        b"trio-job 3\njob m{limiter l 1{}}",
        b"17 nothing asks for a token of the limiter l: no `acquire l` is in it\n",
    ),
    (b"trio-job 3\njob m{limiter l 1{acquire l{sleep 1;}}}", b""),
    (
        b"trio-job 3\njob m{limiter a 1{limiter b 1{nursery n{start x{acquire a{acquire b{}}}start y{acquire b{acquire a{}}}}}}}",
        b"17 tokens of a and of a limiter in it are asked for in both orders, each while the other is held: this may deadlock\n",
    ),
    (
        b"trio-job 3\njob m{limiter a 1{limiter b 1{nursery n{start x{acquire b{repeat 2{acquire a{}}}}start y{acquire a{try{}finally{scope s after 1 shield{acquire b{}}}}}}}}}",
        b"17 tokens of a and of a limiter in it are asked for in both orders, each while the other is held: this may deadlock\n",
    ),
    (
        b"trio-job 3\njob m{limiter a 1{limiter b 1{nursery n{start x{acquire a{acquire b{}}}start y{acquire a{}acquire b{}}}}}}",
        b"",
    ),
    // A task that is started in an `acquire` does not hold its token.
    (
        b"trio-job 3\njob m{limiter a 1{limiter b 1{acquire a{nursery n{start x{acquire b{acquire a{}}}}}}}}",
        b"",
    ),
    (
        b"trio-job 3\njob m{limiter l 1{try{}finally{acquire l{}}}}",
        b"42 a cleanup that waits here is cut off when its task is cancelled: put the wait into a scope with a deadline and `shield`\n",
    ),
];

// Channels from which nothing receives, to which nothing sends, and that nothing closes; and what their steps raise.
const CHANNELS: &[Row] = &[
    (
        b"trio-job 3\njob m{channel q 1{send q;}}",
        b"17 nothing receives from the channel q: no `receive q` is in it\n",
    ),
    (
        b"trio-job 3\njob m{channel q 0{nursery n{start a{receive q{}}}}}",
        b"17 nothing sends to the channel q or closes it: neither `send q` nor `close q` is in it\n",
    ),
    (
        b"trio-job 3\njob m{channel q 0{nursery n{start a{repeat 9{receive q{}}}send q;}}}",
        b"17 nothing closes the channel q, so a `receive q` in a `repeat` may wait for ever: no `close q` is in it\n",
    ),
    (
        b"trio-job 3\njob m{channel q 1{nursery n{repeat 2{start a{receive q{}}}send q;send q;}}}",
        b"17 nothing closes the channel q, so a `receive q` in a `repeat` may wait for ever: no `close q` is in it\n",
    ),
    (
        b"trio-job 3\njob m{channel q 0{nursery n{start a{try{repeat 9{receive q{}}}except EndOfChannel{}}send q;close q;}}}",
        b"",
    ),
    (
        b"trio-job 3\njob m{channel q 1{send q;receive q{repeat 2{checkpoint;}}}}",
        b"",
    ),
    // Each pass has a channel of its own.
    (
        b"trio-job 3\njob m{repeat 2{channel q 1{send q;receive q{}}}}",
        b"",
    ),
    (
        b"trio-job 3\njob m{channel q 1{try{send q;}except EndOfChannel{}receive q{}}}",
        b"41 nothing in this `try` raises EndOfChannel, so its handler never runs\n",
    ),
    (
        b"trio-job 3\njob m{channel q 1{try{send q;receive q{}}except ClosedResourceError{}}}",
        b"52 nothing in this `try` raises ClosedResourceError: a `send` to a closed channel raises ClosedResource, which `except ClosedResource` handles\n",
    ),
    (
        b"trio-job 3\njob send{channel receive 1{send receive;receive receive{raise close;}}}",
        b"",
    ),
];

// In formats 1 and 2, a `cancel` in a cleanup or handler of what is around that cleanup or handler.
const LATE: &[Row] = &[
    (
        b"trio-job 1\njob m{scope s{try{}finally{cancel s;}}}",
        b"38 `cancel s` in a cleanup or handler takes effect a tick later than in Trio, which may change the outcome: format 3 has Trio's outcome\n",
    ),
    (
        b"trio-job 2\njob m{nursery n{try{raise A;}except A{nursery o{start a{cancel n;}}}}}",
        b"67 `cancel n` in a cleanup or handler takes effect a tick later than in Trio, which may change the outcome: format 3 has Trio's outcome\n",
    ),
    // The scope is inside the cleanup, but around the handler in it.
    (
        b"trio-job 1\njob m{try{}finally{scope s{try{raise A;}except A{cancel s;}}}}",
        b"42 an exception raised in a cleanup replaces the one that the cleanup began with\n60 `cancel s` in a cleanup or handler takes effect a tick later than in Trio, which may change the outcome: format 3 has Trio's outcome\n",
    ),
    (b"trio-job 1\njob m{try{}finally{scope s{cancel s;}}}", b""),
    (b"trio-job 1\njob m{scope s{try{cancel s;}finally{}}}", b""),
    (b"trio-job 3\njob m{scope s{try{}finally{cancel s;}}}", b""),
];

// Several warnings, in the order of their keywords.
const SEVERAL: &[Row] = &[(
    b"trio-job 1\njob m{try{}finally{forever;raise A;}scope s{}}",
    b"30 a cleanup that waits here is cut off when its task is cancelled: put the wait into a scope with a deadline and `shield`\n38 this step never runs: the step before it never ends well\n38 an exception raised in a cleanup replaces the one that the cleanup began with\n47 nothing cancels the scope s: it has no deadline, and no `cancel s` is in it\n",
)];

// Appends a line for a warning.
fn push_line(alloc: Global, lines: &mut Vec<u8>, warning: &Warning) -> Result<(), AllocError> {
    let place = warning.at.to_string(alloc)?;
    let text = sentence(alloc, warning)?;
    lines.extend_from_slice(place.as_bytes())?;
    lines.extend_from_slice(b" ")?;
    lines.extend_from_slice(text.as_slice())?;
    lines.extend_from_slice(b"\n")
}

// Returns the warnings of a text. If memory runs out they are requested again.
fn warnings_of(alloc: Global, text: &[u8]) -> Result<Vec<Warning>, JobFault> {
    match lints(alloc, text) {
        Err(fault) if fault.kind == JobKind::NoMemory => lints(alloc, text),
        answer => answer,
    }
}

// Returns a line for each warning of a text.
fn lines_of(alloc: Global, text: &[u8]) -> Result<Vec<u8>, Fail> {
    let warnings = warnings_of(alloc, text)?;
    let mut lines = Vec::new(alloc);
    for warning in warnings.as_slice() {
        push_line(alloc, &mut lines, warning)?;
    }
    Ok(lines)
}

// Fails at the first row with other lines, and prints them.
fn assert_lines(alloc: Global, rows: &[Row]) -> Result<(), Fail> {
    for i in 0..rows.len() {
        let (text, expected) = rows[i];
        let lines = lines_of(alloc, text)?;
        if lines.as_slice() != expected {
            return match str::from_utf8(lines.as_slice()) {
                Ok(found) => Err(("found", found))?,
                Err(_) => Err(("row", i))?,
            };
        }
    }
    Ok(())
}

#[test]
fn steps_that_never_run(rt: HostRuntime) -> Result<(), Fail> {
    assert_lines(rt.alloc(), UNREACHABLE)
}

#[test]
fn cleanups_that_wait(rt: HostRuntime) -> Result<(), Fail> {
    assert_lines(rt.alloc(), EXPOSED)
}

#[test]
fn cleanups_that_raise(rt: HostRuntime) -> Result<(), Fail> {
    assert_lines(rt.alloc(), RAISED)
}

#[test]
fn shields_without_a_deadline(rt: HostRuntime) -> Result<(), Fail> {
    assert_lines(rt.alloc(), SHIELDS)
}

#[test]
fn scopes_that_nothing_cancels(rt: HostRuntime) -> Result<(), Fail> {
    assert_lines(rt.alloc(), SCOPES)
}

#[test]
fn handlers_of_what_nothing_raises(rt: HostRuntime) -> Result<(), Fail> {
    assert_lines(rt.alloc(), HANDLERS)
}

#[test]
fn events_that_nothing_sets_or_waits_for(rt: HostRuntime) -> Result<(), Fail> {
    assert_lines(rt.alloc(), EVENTS)
}

#[test]
fn limiters_that_are_not_used_or_may_deadlock(rt: HostRuntime) -> Result<(), Fail> {
    assert_lines(rt.alloc(), LIMITERS)
}

#[test]
fn channels_that_are_not_used_or_stay_open(rt: HostRuntime) -> Result<(), Fail> {
    assert_lines(rt.alloc(), CHANNELS)
}

#[test]
fn cancellations_that_come_later_than_in_trio(rt: HostRuntime) -> Result<(), Fail> {
    assert_lines(rt.alloc(), LATE)
}

#[test]
fn warnings_are_listed_in_the_order_of_the_text(rt: HostRuntime) -> Result<(), Fail> {
    assert_lines(rt.alloc(), SEVERAL)
}

// Returns the refusal of a text.
fn refusal_of(alloc: Global, text: &[u8]) -> Result<JobFault, Fail> {
    match warnings_of(alloc, text) {
        Ok(_) => Err("not refused")?,
        Err(fault) => Ok(fault),
    }
}

#[test]
fn a_text_that_is_not_a_job_is_refused(rt: HostRuntime) -> Result<(), Fail> {
    let fault = refusal_of(rt.alloc(), b"trio-job 1\njob m{slep 1;}")?;
    if fault.at != 17 || fault.kind != JobKind::Syntax {
        return Err("another refusal")?;
    }
    Ok(())
}
