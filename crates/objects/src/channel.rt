ghost use Rattle.std.specs.Prelude.{◌≡◌, Bool, true, List, ℕ, [], ◌∷◌, OnOk, map};
ghost use Rattle.std.specs.List.{filter};
ghost use Rattle.input_lines.specs.Part.{buffer_of, range_of};
ghost use Rattle.std.specs.Option.{ForSome, option_map};
ghost use Rattle.objects.specs.Channels.{new_channel, put_part, send_to, meet_sender, await_part, receive_with, close_of, refuse_senders, end_receivers};
ghost use Rattle.objects.specs.Held.{channel_in, sender_in, sender_of, part_of, gets_by, waits_to_send, refilled, AreGivenOf, AreGranted, AreInQueuesBy, AreOf, IsOf, PartsServed, PassesAll, StaysOf, TakesFirst};
ghost use Rattle.objects.specs.declared.ticket.Ticket.{Ticket as TicketOf};

use crate::given::{Given, Grant, give};
use crate::limiter::next_waiting;
use crate::ticket::{Queues, Ticket};
use input_lines::Part;
use std::alloc::{AllocError, Global};
use std::collections::VecDeque;

// Who waits to send, with its part.
#[derive(Clone, Copy)]
pub(crate) struct Sender<'a> {
    pub(crate) who: Ticket,
    pub(crate) part: Part<'a>,
}

/// A channel of parts of an input: who sends while the buffer is full waits in one queue, and who receives while it is empty in
/// another. Tickets that wait no more may be left in the queues.
#[derive(Drop)]
pub struct Channel<'a> {
    pub(crate) places: u64,
    pub(crate) buffer: VecDeque<Part<'a>>,
    pub(crate) is_closed: bool,
    pub(crate) senders: VecDeque<Sender<'a>>,
    pub(crate) receivers: VecDeque<Ticket>,
}

impl<'a> Channel<'a> {
    // Returns an open channel whose buffer has this number of places and is empty. Takes no memory.
    pub(crate) fn new(alloc: Global, places: u64) -> Channel<'a>
        ensures new { (waits : TicketOf → Bool) → channel_in waits result ≡ new_channel places }
        ensures queued { (test : TicketOf → Bool) → AreInQueuesBy test result }
        ensures lent { (input : List ℕ) → IsOf input result }
    {
        Channel {
            places,
            buffer: VecDeque::new(alloc),
            is_closed: false,
            senders: VecDeque::new(alloc),
            receivers: VecDeque::new(alloc),
        }
    }

    // A part is sent: to the first that waits to receive, or else into the buffer if it has room, or else its sender waits. Where the
    // channel is closed, it is refused.
    pub(crate) fn send<Q: Queues>(
        &mut self,
        who: Ticket,
        part: Part<'a>,
        queues: &Q,
        given: &mut Vec<Given<'a>>,
    ) -> Result<(), AllocError>
        ensures serves { OnOk result (PartsServed (Q.waits queues.now)
            (send_to (channel_in (Q.waits queues.now) self.old) who (range_of part.entry)) self.new given.old.items given.new.items) }
        ensures queued { OnOk result ((test : TicketOf → Bool) → AreInQueuesBy test self.old → test who ≡ true → AreInQueuesBy test self.new) }
        ensures lent { OnOk result (StaysOf (buffer_of part.entry ∷ []) self.old self.new given.old.items given.new.items) }
    {
        if self.is_closed {
            return give(given, who, Grant::ClosedResource);
        }
        let Some(receiver) = next_waiting(&mut self.receivers, queues) else {
            return self.put(who, part, given);
        };
        give(given, receiver, Grant::Received(part))?;
        give(given, who, Grant::Sent)
    }

    // A part for which nobody waits goes into the buffer if it has room, or else its sender waits.
    fn put(
        &mut self,
        who: Ticket,
        part: Part<'a>,
        given: &mut Vec<Given<'a>>,
    ) -> Result<(), AllocError>
        ensures serves { OnOk result ((waits : TicketOf → Bool) → PartsServed waits
            (put_part (channel_in waits self.old) who (range_of part.entry)) self.new given.old.items given.new.items) }
        ensures queued { OnOk result ((test : TicketOf → Bool) → AreInQueuesBy test self.old → test who ≡ true → AreInQueuesBy test self.new) }
        ensures lent { OnOk result (StaysOf (buffer_of part.entry ∷ []) self.old self.new given.old.items given.new.items) }
    {
        if self.buffer.len() as u64 >= self.places {
            self.senders.push_back(Sender { who, part })?;
            return Ok(());
        }
        self.buffer.push_back(part)?;
        give(given, who, Grant::Sent)
    }

    // A part is asked for: the first of the buffer is received, whose place the part of the first that waits to send takes; or else the
    // part of that one is. Where there is none, the receiver waits, unless the channel is closed.
    pub(crate) fn receive<Q: Queues>(
        &mut self,
        who: Ticket,
        queues: &Q,
        given: &mut Vec<Given<'a>>,
    ) -> Result<(), AllocError>
        ensures serves { OnOk result (PartsServed (Q.waits queues.now)
            (receive_with (channel_in (Q.waits queues.now) self.old) (channel_in (Q.waits queues.now) self.old).buffer who) self.new
            given.old.items given.new.items) }
        ensures queued { OnOk result ((test : TicketOf → Bool) → AreInQueuesBy test self.old → test who ≡ true → AreInQueuesBy test self.new) }
        ensures lent { OnOk result (StaysOf [] self.old self.new given.old.items given.new.items) }
    {
        let Some(part) = self.buffer.pop_front() else {
            return self.meet(who, queues, given);
        };
        give(given, who, Grant::Received(part))?;
        self.refill(queues, given)
    }

    // The part of the first that waits to send takes the place that came free in the buffer.
    fn refill<Q: Queues>(
        &mut self,
        queues: &Q,
        given: &mut Vec<Given<'a>>,
    ) -> Result<(), AllocError>
        ensures serves { OnOk result (PartsServed (Q.waits queues.now)
            (refilled (channel_in (Q.waits queues.now) self.old) (channel_in (Q.waits queues.now) self.old).senders) self.new
            given.old.items given.new.items) }
        ensures queued { OnOk result ((test : TicketOf → Bool) → AreInQueuesBy test self.old → AreInQueuesBy test self.new) }
        ensures lent { OnOk result (StaysOf [] self.old self.new given.old.items given.new.items) }
    {
        let Some(sender) = next_sender(&mut self.senders, queues) else {
            return Ok(());
        };
        self.buffer.push_back(sender.part)?;
        give(given, sender.who, Grant::Sent)
    }

    // With nothing in the buffer, the part of the first that waits to send is received.
    fn meet<Q: Queues>(
        &mut self,
        who: Ticket,
        queues: &Q,
        given: &mut Vec<Given<'a>>,
    ) -> Result<(), AllocError>
        ensures serves { OnOk result (PartsServed (Q.waits queues.now)
            (meet_sender (channel_in (Q.waits queues.now) self.old) (channel_in (Q.waits queues.now) self.old).senders who) self.new
            given.old.items given.new.items) }
        ensures queued { OnOk result ((test : TicketOf → Bool) → AreInQueuesBy test self.old → test who ≡ true → AreInQueuesBy test self.new) }
        ensures lent { OnOk result (StaysOf [] self.old self.new given.old.items given.new.items) }
    {
        let Some(sender) = next_sender(&mut self.senders, queues) else {
            return self.await_part(who, given);
        };
        give(given, who, Grant::Received(sender.part))?;
        give(given, sender.who, Grant::Sent)
    }

    // Who receives where there is no part waits, unless the channel is closed.
    fn await_part(&mut self, who: Ticket, given: &mut Vec<Given<'a>>) -> Result<(), AllocError>
        ensures serves { OnOk result ((waits : TicketOf → Bool) → PartsServed waits
            (await_part (channel_in waits self.old) who) self.new given.old.items given.new.items) }
        ensures queued { OnOk result ((test : TicketOf → Bool) → AreInQueuesBy test self.old → test who ≡ true → AreInQueuesBy test self.new) }
        ensures lent { OnOk result (StaysOf [] self.old self.new given.old.items given.new.items) }
    {
        if self.is_closed {
            return give(given, who, Grant::EndOfChannel);
        }
        self.receivers.push_back(who)?;
        Ok(())
    }

    // It is closed: who waits is let go with an exception. What is in the buffer can still be received.
    pub(crate) fn close<Q: Queues>(
        &mut self,
        queues: &Q,
        given: &mut Vec<Given<'a>>,
    ) -> Result<(), AllocError>
        ensures serves { OnOk result (PartsServed (Q.waits queues.now)
            (close_of (channel_in (Q.waits queues.now) self.old)) self.new given.old.items given.new.items) }
        ensures queued { OnOk result ((test : TicketOf → Bool) → AreInQueuesBy test self.old → AreInQueuesBy test self.new) }
        ensures lent { OnOk result (StaysOf [] self.old self.new given.old.items given.new.items) }
    {
        self.is_closed = true;
        refuse_senders(&mut self.senders, queues, given)?;
        end_receivers(&mut self.receivers, queues, given)
    }
}

// Takes the first that still waits to send, if there is one, and those before it.
fn next_sender<'a, Q: Queues>(senders: &mut VecDeque<Sender<'a>>, queues: &Q) -> Option<Sender<'a>>
    ensures first { TakesFirst (filter (waits_to_send (Q.waits queues.now)) (map sender_in senders.old.items)) (option_map sender_in result)
        (filter (waits_to_send (Q.waits queues.now)) (map sender_in senders.new.items)) }
    ensures queued { (test : TicketOf → Bool) → PassesAll test (map sender_of senders.old.items) → PassesAll test (map sender_of senders.new.items) }
    ensures lent { (input : List ℕ) → AreOf input (map part_of senders.old.items) →
        AreOf input (map part_of senders.new.items) × ForSome result (λ sender. buffer_of sender.part ≡ input) }
{
    'senders: while let Some(sender) = senders.pop_front() {
        if queues.waits(sender.who) {
            return Some(sender);
        }
    }
    None
}

// Each that still waits to send finds the channel closed.
fn refuse_senders<'a, Q: Queues>(
    senders: &mut VecDeque<Sender<'a>>,
    queues: &Q,
    given: &mut Vec<Given<'a>>,
) -> Result<(), AllocError>
    ensures empty { OnOk result (filter (waits_to_send (Q.waits queues.now)) (map sender_in senders.new.items) ≡ []) }
    ensures granted { OnOk result (AreGranted (map gets_by (refuse_senders (filter (waits_to_send (Q.waits queues.now)) (map sender_in senders.old.items))))
        given.old.items given.new.items) }
    ensures queued { OnOk result ((test : TicketOf → Bool) → PassesAll test (map sender_of senders.old.items) →
        PassesAll test (map sender_of senders.new.items)) }
    ensures lent { OnOk result ((input : List ℕ) → AreOf input (map part_of senders.old.items) → AreGivenOf input given.old.items →
        AreOf input (map part_of senders.new.items) × AreGivenOf input given.new.items) }
{
    'senders: while let Some(sender) = next_sender(senders, queues) {
        give(given, sender.who, Grant::ClosedResource)?;
    }
    Ok(())
}

// Each that still waits to receive finds the channel closed.
fn end_receivers<'a, Q: Queues>(
    receivers: &mut VecDeque<Ticket>,
    queues: &Q,
    given: &mut Vec<Given<'a>>,
) -> Result<(), AllocError>
    ensures empty { OnOk result (filter (Q.waits queues.now) receivers.new.items ≡ []) }
    ensures granted { OnOk result (AreGranted (map gets_by (end_receivers (filter (Q.waits queues.now) receivers.old.items)))
        given.old.items given.new.items) }
    ensures queued { OnOk result ((test : TicketOf → Bool) → PassesAll test receivers.old.items → PassesAll test receivers.new.items) }
    ensures lent { OnOk result ((input : List ℕ) → AreGivenOf input given.old.items → AreGivenOf input given.new.items) }
{
    'receivers: while let Some(who) = next_waiting(receivers, queues) {
        give(given, who, Grant::EndOfChannel)?;
    }
    Ok(())
}
