ghost use Rattle.std.specs.Prelude.{◌≡◌, ◌≢◌, ℕ, ◌+◌, ◌<◌, ◌≤◌, false, true, [], ◌∷◌, ◌++◌, All, Any, IfOk, IfSome, IsSome, IsNone, sum_by, count_by, nat_eq, vec_len};
ghost use Rattle.workers.specs.declared.limits.TheConstants.{MAX_REQUESTS};

use crate::rule::{Counts, Cut, Draw, Gather, Word};
use crate::worker::Pass;
use std::alloc::{AllocError, Global};

/// The numbers of a batch of requests, which several threads draw one by one. Shared by reference.
#[derive(Drop)]
pub struct Claims {
    word: Word,
    requests: usize,
    ghost one_word: { word.shared.table_id.words ≡ 1 },
    ghost no_slot: { word.shared.table_id.slots ≡ 0 },
    ghost known: { word.shared.key.requests ≡ requests },
    ghost few: { (requests ≤ MAX_REQUESTS) × (word.shared.key.passes ≤ 64) },
}

impl Claims {
    ghost use Rattle.workers.specs.Claims.{requests_of, passes_of, IsPassOf, drawn_by, is_spent};

    /// Creates claims for the numbers from 0 up to `requests`, which is left out, and the given number of tickets, which
    /// have drawn nothing yet. The caller must ensure that there are at most `MAX_REQUESTS` requests and from 1 to 64 tickets.
    /// Returns `AllocError` if memory runs out.
    pub fn new(
        alloc: Global,
        requests: usize,
        passes: usize,
    ) -> Result<(Claims, Vec<Pass>), AllocError>
        requires few_requests { requests ≤ MAX_REQUESTS }
        requires some_pass { 1 ≤ passes }
        requires few_passes { passes ≤ 64 }
        ensures requests { IfOk result (λ made. requests_of made.0 ≡ requests) }
        ensures passes { IfOk result (λ made. (passes_of made.0 ≡ passes) × (vec_len made.1 ≡ passes)) }
        ensures fresh { IfOk result (λ made. All (λ pass. IsPassOf made.0 pass × (drawn_by pass ≡ []) × (is_spent pass ≡ false))
            made.1.items) }
    {
        let counts = Counts {
            requests: requests as u64,
            passes: passes as u64,
        };
        let (word, mut seat) = Word::of_words(alloc, &[0], &counts)?;
        let mut made = Vec::with_capacity(alloc, passes)?;
        let mut left = passes;
        'cuts: while left > 1 {
            let cut = word.shared.split_seat::<Cut>(&mut seat);
            made.push(Pass { seat: cut })?;
            left -= 1;
        }
        made.push(Pass { seat })?;
        Ok((Claims { word, requests }, made))
    }

    /// Draws the next number that no ticket has drawn yet. Returns `None` if all numbers are drawn, and the ticket must not
    /// claim again after that. The numbers that one ticket draws are increasing.
    ///
    /// The caller must ensure that the ticket was created with these claims and has not got `None` yet. Does not allocate
    /// and does not wait.
    pub fn claim(&self, pass: &mut Pass) -> Option<usize>
        requires same { IsPassOf self.now pass.old }
        requires unspent { is_spent pass.old ≡ false }
        ensures same { IsPassOf self.now pass.new }
        ensures number { IfSome result (λ i. (i < requests_of self.now) × All (λ j. j < i) (drawn_by pass.old)) }
        ensures drawn { IfSome result (λ i. drawn_by pass.new ≡ drawn_by pass.old ++ i ∷ []) }
        ensures unspent { IsSome result → is_spent pass.new ≡ false }
        ensures spent { IsNone result → (drawn_by pass.new ≡ drawn_by pass.old) × (is_spent pass.new ≡ true) }
    {
        let found = self.word.shared.fetch_add::<Draw>(&mut pass.seat, 0, 1);
        if found < self.requests as u64 {
            Some(found as usize)
        } else {
            None
        }
    }

    /// Ends the claims and returns the number of requests. The contract states that the tickets together have drawn each
    /// number exactly once. The caller must pass all tickets that were created with these claims, of which at least one
    /// must have got `None`.
    pub fn close(self, passes: Vec<Pass>) -> u64
        requires all { (vec_len passes ≡ passes_of self) × All (IsPassOf self) passes.items }
        requires spent { Any (λ pass. is_spent pass ≡ true) passes.items }
        ensures count { result ≡ requests_of self }
        ensures each_once { (i : ℕ) → i < requests_of self → sum_by (λ pass. count_by (nat_eq i) (drawn_by pass)) passes.items ≡ 1 }
        ensures no_other { (i : ℕ) → requests_of self ≤ i → sum_by (λ pass. count_by (nat_eq i) (drawn_by pass)) passes.items ≡ 0 }
    {
        let mut passes = passes;
        let Some(mut all) = passes.pop() else {
            unreachable!()
        };
        'joins: while let Some(other) = passes.pop() {
            let Pass { seat } = other;
            self.word.shared.join_seat::<Gather>(&mut all.seat, seat);
        }
        passes.destroy_empty();
        let Claims { word, requests } = self;
        let Pass { seat } = all;
        let closed = word.close_with(seat);
        let claimed = closed.word(0);
        closed.free();
        claimed.min(requests as u64)
    }
}
