ghost use Rattle.std.specs.Prelude.{◌≡◌, ℕ, ◌+◌, Bool, true, List, [], ◌∷◌, OnOk};
ghost use Rattle.std.specs.List.{filter};
ghost use Rattle.objects.specs.Limiters.{acquire_of, give_back_to, new_limiter};
ghost use Rattle.objects.specs.Held.{limiter_in, AreGivenOf, PassesAll, TakesFirst, TokensServed};
ghost use Rattle.objects.specs.declared.ticket.Ticket.{Ticket as TicketOf};

use crate::given::{Given, Grant, give};
use crate::ticket::{Queues, Ticket};
use std::alloc::{AllocError, Global};
use std::collections::VecDeque;

/// A limiter: who asks for a token while none is free waits in the queue. Tickets that wait no more may be left in it.
#[derive(Drop)]
pub struct Limiter {
    pub(crate) free: u64,
    pub(crate) waiting: VecDeque<Ticket>,
}

impl Limiter {
    // Returns a limiter with this number of tokens, which are free. Takes no memory.
    pub(crate) fn new(alloc: Global, tokens: u64) -> Limiter
        ensures new { (waits : TicketOf → Bool) → limiter_in waits result ≡ new_limiter tokens }
        ensures queued { (test : TicketOf → Bool) → PassesAll test result.waiting.items }
    {
        Limiter {
            free: tokens,
            waiting: VecDeque::new(alloc),
        }
    }

    // A token is asked for: it is taken if one is free, or else the ticket waits.
    pub(crate) fn acquire<'a>(
        &mut self,
        who: Ticket,
        given: &mut Vec<Given<'a>>,
    ) -> Result<(), AllocError>
        ensures serves { OnOk result ((waits : TicketOf → Bool) → TokensServed waits
            (acquire_of (limiter_in waits self.old).free (limiter_in waits self.old).waiting who) self.new given.old.items given.new.items) }
        ensures queued { OnOk result ((test : TicketOf → Bool) → PassesAll test self.old.waiting.items → test who ≡ true →
            PassesAll test self.new.waiting.items) }
        ensures lent { OnOk result ((input : List ℕ) → AreGivenOf input given.old.items → AreGivenOf input given.new.items) }
    {
        if self.free == 0 {
            self.waiting.push_back(who)?;
            return Ok(());
        }
        self.free -= 1;
        give(given, who, Grant::Token)
    }

    // A token comes back, and goes to the first that still waits.
    pub(crate) fn give_back<'a, Q: Queues>(
        &mut self,
        queues: &Q,
        given: &mut Vec<Given<'a>>,
    ) -> Result<(), AllocError>
        ensures serves { OnOk result (TokensServed (Q.waits queues.now)
            (give_back_to (limiter_in (Q.waits queues.now) self.old).free (limiter_in (Q.waits queues.now) self.old).waiting) self.new
            given.old.items given.new.items) }
        ensures queued { OnOk result ((test : TicketOf → Bool) → PassesAll test self.old.waiting.items → PassesAll test self.new.waiting.items) }
        ensures lent { OnOk result ((input : List ℕ) → AreGivenOf input given.old.items → AreGivenOf input given.new.items) }
    {
        let Some(who) = next_waiting(&mut self.waiting, queues) else {
            return self.free_one();
        };
        give(given, who, Grant::Token)
    }

    // One token more is free. No limiter has as many tokens as a count has values, so there is always room for one.
    fn free_one(&mut self) -> Result<(), AllocError>
        ensures { OnOk result (self.new ≡ record self.old { free = self.old.free + 1 }) }
    {
        let Some(free) = self.free.checked_add(1) else {
            return Err(AllocError);
        };
        self.free = free;
        Ok(())
    }
}

// Takes the first that still waits, if there is one, and those before it.
pub(crate) fn next_waiting<Q: Queues>(waiting: &mut VecDeque<Ticket>, queues: &Q) -> Option<Ticket>
    ensures first { TakesFirst (filter (Q.waits queues.now) waiting.old.items) result (filter (Q.waits queues.now) waiting.new.items) }
    ensures queued { (test : TicketOf → Bool) → PassesAll test waiting.old.items → PassesAll test waiting.new.items }
{
    'tickets: while let Some(ticket) = waiting.pop_front() {
        if queues.waits(ticket) {
            return Some(ticket);
        }
    }
    None
}
