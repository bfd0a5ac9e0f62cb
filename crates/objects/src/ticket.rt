ghost use Rattle.std.specs.Prelude.{◌≡◌, Bool};
ghost use Rattle.objects.specs.declared.ticket.Ticket.{Ticket as TicketOf};

/// Who asked something: the task of a row, in a moment.
#[derive(Clone, Copy)]
pub struct Ticket {
    /// The row of the task in the table of tasks, which no other task ever has.
    pub row: usize,
    /// The moment in which it asked.
    pub since: u64,
}

/// Knows which tasks still wait for what they asked.
pub trait Queues {
    // whether the task of a ticket still waits
    ghost waits: { Self → TicketOf → Bool };

    /// Returns whether the task of the ticket still waits for what it asked in that moment.
    fn waits(&self, ticket: Ticket) -> bool
        ensures { result ≡ waits self.now ticket };
}
