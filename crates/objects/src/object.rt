ghost use Rattle.std.specs.Prelude.{◌≡◌, ℕ, Bool, List, OnOk};
ghost use Rattle.objects.specs.Channels.{after_acts as after_parts};
ghost use Rattle.objects.specs.Held.{channel_in, limiter_in, object_in, new_object, to_channel, to_limiter, AreGivenOf, AreInQueuesBy, AreQueuedBy, IsAskedBy, IsOperationOf, IsObjectOf, IsOf, PartsServed, PassesAll, Serves, TokensServed};
ghost use Rattle.objects.specs.Limiters.{after_acts as after_tokens};
ghost use Rattle.objects.specs.declared.ticket.Ticket.{Ticket as TicketOf};

use crate::channel::Channel;
use crate::given::Given;
use crate::limiter::Limiter;
use crate::ticket::{Queues, Ticket};
use input_lines::Part;
use job_tree::{Ask, ObjectKind};
use std::alloc::{AllocError, Global};

/// A limiter or a channel.
#[derive(Drop)]
pub enum Object<'a> {
    /// A limiter.
    Limiter(Limiter),
    /// A channel.
    Channel(Channel<'a>),
}

/// What is done to a limiter or channel.
#[derive(Clone, Copy)]
pub enum Operation<'a> {
    /// A task asks for something.
    Asks {
        /// The task, and the moment in which it asks.
        who: Ticket,
        /// What it asks for.
        ask: Ask,
        /// The part of the input that it has, which it sends if it asks to.
        part: Part<'a>,
    },
    /// A token comes back. Nothing is done to a channel by it.
    GivesBack,
    /// It is closed. Nothing is done to a limiter by it.
    Closes,
}

impl<'a> Object<'a> {
    /// Returns an object of this kind: a limiter whose tokens are free, or an open channel whose buffer is empty. Takes no memory.
    pub fn open(alloc: Global, kind: ObjectKind) -> Object<'a>
        ensures new { (waits : TicketOf → Bool) → object_in waits result ≡ new_object kind }
        ensures queued { (test : TicketOf → Bool) → AreQueuedBy test result }
        ensures lent { (input : List ℕ) → IsObjectOf input result }
    {
        match kind {
            ObjectKind::Limiter(tokens) => Object::Limiter(Limiter::new(alloc, tokens)),
            ObjectKind::Channel(places) => Object::Channel(Channel::new(alloc, places)),
        }
    }

    /// Serves what is done to it, by what the queues know of who still waits, and adds what it grants to `given`, in order. A limiter
    /// cannot be sent to, received from or closed, and a channel has no tokens: such an operation does nothing. The only error is that
    /// memory runs out, after which the object can only be dropped.
    pub fn serve<Q: Queues>(
        &mut self,
        operation: Operation<'a>,
        queues: &Q,
        given: &mut Vec<Given<'a>>,
    ) -> Result<(), AllocError>
        ensures serves { OnOk result (Serves (Q.waits queues.now) self.old self.new operation.entry given.old.items given.new.items) }
        ensures lent { OnOk result ((input : List ℕ) → IsObjectOf input self.old → IsOperationOf input operation.entry → AreGivenOf input given.old.items →
            IsObjectOf input self.new × AreGivenOf input given.new.items) }
    {
        match self {
            Object::Limiter(limiter) => serve_tokens(limiter, operation, queues, given),
            Object::Channel(channel) => serve_parts(channel, operation, queues, given),
        }
    }
}

// What is done to a limiter.
fn serve_tokens<'a, Q: Queues>(
    limiter: &mut Limiter,
    operation: Operation<'a>,
    queues: &Q,
    given: &mut Vec<Given<'a>>,
) -> Result<(), AllocError>
    ensures serves { OnOk result (TokensServed (Q.waits queues.now)
        (after_tokens (limiter_in (Q.waits queues.now) limiter.old) (to_limiter operation.entry)) limiter.new given.old.items given.new.items) }
    ensures queued { OnOk result ((test : TicketOf → Bool) → PassesAll test limiter.old.waiting.items → IsAskedBy test operation.entry →
        PassesAll test limiter.new.waiting.items) }
    ensures lent { OnOk result ((input : List ℕ) → AreGivenOf input given.old.items → AreGivenOf input given.new.items) }
{
    match operation {
        Operation::Asks { who, ask, .. } => match ask {
            Ask::Acquire => limiter.acquire(who, given),
            Ask::Send => Ok(()),
            Ask::Receive => Ok(()),
        },
        Operation::GivesBack => limiter.give_back(queues, given),
        Operation::Closes => Ok(()),
    }
}

// What is done to a channel.
fn serve_parts<'a, Q: Queues>(
    channel: &mut Channel<'a>,
    operation: Operation<'a>,
    queues: &Q,
    given: &mut Vec<Given<'a>>,
) -> Result<(), AllocError>
    ensures serves { OnOk result (PartsServed (Q.waits queues.now)
        (after_parts (channel_in (Q.waits queues.now) channel.old) (to_channel operation.entry)) channel.new given.old.items given.new.items) }
    ensures queued { OnOk result ((test : TicketOf → Bool) → AreInQueuesBy test channel.old → IsAskedBy test operation.entry →
        AreInQueuesBy test channel.new) }
    ensures lent { OnOk result ((input : List ℕ) → IsOperationOf input operation.entry → IsOf input channel.old → AreGivenOf input given.old.items →
        IsOf input channel.new × AreGivenOf input given.new.items) }
{
    match operation {
        Operation::Asks { who, ask, part } => match ask {
            Ask::Acquire => Ok(()),
            Ask::Send => channel.send(who, part, queues, given),
            Ask::Receive => channel.receive(who, queues, given),
        },
        Operation::GivesBack => Ok(()),
        Operation::Closes => channel.close(queues, given),
    }
}
