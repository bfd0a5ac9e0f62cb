ghost use Rattle.std.specs.Prelude.{◌≡◌, ◌++◌, [], ◌∷◌, OnOk};

use crate::ticket::Ticket;
use input_lines::Part;
use std::alloc::AllocError;

/// What a limiter or channel grants to a task that asked.
#[derive(Clone, Copy)]
pub enum Grant<'a> {
    /// A token of the limiter, which comes back when the block of the `acquire` ends.
    Token,
    /// Its part was sent.
    Sent,
    /// It received this part, which is its part in the block of the `receive`.
    Received(Part<'a>),
    /// Nothing can be sent, since the channel is closed. The task raises `ClosedResource`.
    ClosedResource,
    /// Nothing can be received any more, since the channel is closed and empty. The task raises `EndOfChannel`.
    EndOfChannel,
}

/// A grant, and who gets it.
#[derive(Clone, Copy)]
pub struct Given<'a> {
    /// Who asked.
    pub who: Ticket,
    /// What is granted.
    pub grant: Grant<'a>,
}

// Adds what is granted.
pub(crate) fn give<'a>(
    given: &mut Vec<Given<'a>>,
    who: Ticket,
    grant: Grant<'a>,
) -> Result<(), AllocError>
    ensures { OnOk result (given.new.items ≡ given.old.items ++ record { who = who; grant = grant.entry } ∷ []) }
{
    given.push(Given { who, grant })?;
    Ok(())
}
