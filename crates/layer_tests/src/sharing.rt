//! `objects`: what a limiter and a channel grant, by one act after the other; and the table of grants of `job_meaning`.
ghost use Rattle.std.specs.Prelude.{not, ◌==◌};

use crate::fixtures::{label, same};
use input_lines::Part;
use job_meaning::{GrantTable, Granted};
use job_tree::{Ask, ObjectKind};
use objects::{Given, Grant, Object, Operation, Queues, Ticket};
use std::alloc::{AllocError, Global};
use std::test::Fail;

// Each task that asked waits still, but for the one at index 3 of the task table.
struct AllButThree;

impl Queues for AllButThree {
    ghost waits = { λ queues ticket. not (ticket.row == 3) };

    fn waits(&self, ticket: Ticket) -> bool {
        ticket.row != 3
    }
}

// The task of a row asks in moment 1.
fn asks(row: usize, ask: Ask) -> Operation<'static> {
    let who = Ticket { row, since: 1 };
    let part = Part::whole(b"one\n");
    Operation::Asks { who, ask, part }
}

// The letter of what is granted.
fn letter_of(grant: Grant<'_>) -> u8 {
    match grant {
        Grant::Token => b't',
        Grant::Sent => b's',
        Grant::Received(_) => b'r',
        Grant::ClosedResource => b'c',
        Grant::EndOfChannel => b'e',
    }
}

// What an object grants by these operations, one after the other: the row of who gets something, and the letter of what.
fn grants_of(
    alloc: Global,
    kind: ObjectKind,
    operations: &[Operation<'static>],
) -> Result<Vec<u8>, AllocError> {
    let mut object = Object::open(alloc, kind);
    let mut given = Vec::new(alloc);
    for operation in operations {
        object.serve(*operation, &AllButThree, &mut given)?;
    }
    text_of(alloc, given.as_slice())
}

// The text of what was given.
fn text_of(alloc: Global, given: &[Given<'static>]) -> Result<Vec<u8>, AllocError> {
    let mut text = Vec::new(alloc);
    for one in given {
        let digit = (one.who.row % 10) as u8;
        text.push(b'0' + digit)?;
        text.push(letter_of(one.grant))?;
    }
    Ok(text)
}

#[test]
fn a_token_goes_to_the_first_that_waits_still(rt: HostRuntime) -> Result<(), Fail> {
    let operations = [
        asks(1, Ask::Acquire),
        asks(3, Ask::Acquire),
        asks(2, Ask::Acquire),
        Operation::GivesBack,
        Operation::GivesBack,
        asks(4, Ask::Acquire),
    ];
    let found = grants_of(rt.alloc(), ObjectKind::Limiter(1), &operations)?;
    same(found.as_slice(), b"1t2t4t")
}

#[test]
fn a_sender_waits_for_a_place(rt: HostRuntime) -> Result<(), Fail> {
    let operations = [
        asks(1, Ask::Send),
        asks(2, Ask::Send),
        asks(4, Ask::Receive),
        asks(4, Ask::Receive),
        asks(5, Ask::Receive),
        asks(1, Ask::Send),
    ];
    let found = grants_of(rt.alloc(), ObjectKind::Channel(1), &operations)?;
    same(found.as_slice(), b"1s4r2s4r5r1s")
}

#[test]
fn a_closed_channel_is_emptied_first(rt: HostRuntime) -> Result<(), Fail> {
    let operations = [
        asks(1, Ask::Send),
        asks(2, Ask::Send),
        Operation::Closes,
        asks(4, Ask::Send),
        asks(5, Ask::Receive),
        asks(5, Ask::Receive),
        Operation::Closes,
    ];
    let found = grants_of(rt.alloc(), ObjectKind::Channel(1), &operations)?;
    same(found.as_slice(), b"1s2c4c5r5e")
}

// Looks up what was granted to the task `t` that asked the limiter `l` in a moment.
fn granted_in(alloc: Global, grants: &GrantTable<'_>, since: u64) -> Result<Option<u64>, Fail> {
    let object = label(alloc, b"l")?;
    let task = label(alloc, b"t")?;
    let granted = grants.granted(alloc, &object, &task, since)?;
    match granted {
        Some(granted) => Ok(Some(granted.at)),
        None => Ok(None),
    }
}

#[test]
fn a_grant_is_found_by_its_labels_and_its_moment(rt: HostRuntime) -> Result<(), Fail> {
    let alloc = rt.alloc();
    let mut grants = GrantTable::new(alloc);
    let granted = Granted {
        at: 8,
        grant: Grant::Token,
    };
    grants.record(label(alloc, b"l")?, label(alloc, b"t")?, 5, granted)?;
    assert!(rt; granted_in(alloc, &grants, 5)? == Some(8));
    assert!(rt; granted_in(alloc, &grants, 6)? == None);
    Ok(())
}
