ghost use Rattle.std.specs.Prelude.{◌≡◌, [], ◌∷◌, IfOk};
ghost use Rattle.job_edits.specs.declared.fault.Fault.TheVariants.{Cancelled};
ghost use Rattle.job_edits.specs.Faults.{plan_of, last_place, replacement, insertion, insertion_after, raising, raising_late, hanging, changes_by, probe_by};

use crate::change::{Change, Piece};
use crate::fault::Fault;
use crate::fresh::fresh_word;
use crate::waiting::{Waiting, first_mark};
use job_tokens::{Mark, Token};
use job_tree::Name;
use std::alloc::{AllocError, Global};

/// What the changes of a job text need besides the step at which they are made. Places are in bytes from the start of the text.
#[derive(Clone, Copy)]
pub struct Plan {
    /// The name of the scope that encloses all steps of the job: the first of `outside`, `outside_1` and so on that is not in
    /// the text. That there is such a name is tested, not proved.
    pub outside: Name,
    /// The name of the exception that shows whether a fault is reached: the first of `reached`, `reached_1` and so on that is
    /// not in the text. That there is such a name is tested, not proved.
    pub reached: Name,
    /// The place of the brace that opens the block of the job.
    pub opening: usize,
    /// The place of the brace that closes the block of the job.
    pub closing: usize,
}

impl Plan {
    /// Makes the plan for the job text with these tokens. The only error is that memory runs out.
    pub fn of(alloc: Global, tokens: &[Token]) -> Result<Plan, AllocError>
        ensures { IfOk result (λ plan. plan ≡ plan_of tokens.now) }
    {
        Ok(Plan {
            outside: fresh_word(alloc, b"outside", tokens)?,
            reached: fresh_word(alloc, b"reached", tokens)?,
            opening: first_mark(Mark::Open, tokens).unwrap_or(0),
            closing: last_place(tokens),
        })
    }

    /// Returns the changes of the text that make the fault of a step. The only error is that memory runs out.
    pub fn changes(
        &self,
        alloc: Global,
        step: Waiting,
        fault: Fault,
    ) -> Result<Vec<Change>, AllocError>
        ensures { IfOk result (λ changes. changes.items ≡ changes_by self.now step fault) }
    {
        match fault {
            Fault::Fails(name) => single_change(alloc, &raising(&step, name)),
            Fault::FailsLate(name) => single_change(alloc, &raising_late(&step, name)),
            Fault::Hangs => single_change(alloc, &hanging(&step)),
            Fault::Cancelled => self.cancel_changes(alloc, step),
            Fault::Misses(name) => single_change(alloc, &raising(&step, name)),
        }
    }

    // Returns the changes that cancel the whole job before a step.
    fn cancel_changes(&self, alloc: Global, step: Waiting) -> Result<Vec<Change>, AllocError>
        ensures { IfOk result (λ changes. changes.items ≡ changes_by self.now step Cancelled) }
    {
        let mut changes = Vec::new(alloc);
        changes.push(insertion(self.opening, Piece::OpenScope(self.outside)))?;
        changes.push(insertion(step.from, Piece::Cancel(self.outside)))?;
        changes.push(insertion(self.closing, Piece::Close))?;
        Ok(changes)
    }

    /// Returns the change that shows whether the fault of a step is reached: the exception `reached` is raised there.
    pub fn probe(&self, step: Waiting, fault: Fault) -> Change
        ensures { result ≡ probe_by self.now step fault }
    {
        match fault {
            Fault::FailsLate(_) => raising_late(&step, self.reached),
            Fault::Fails(_) | Fault::Hangs | Fault::Cancelled | Fault::Misses(_) => {
                raising(&step, self.reached)
            }
        }
    }
}

// Returns the place of the last token, or 0 if there is none.
fn last_place(tokens: &[Token]) -> usize
    ensures { result ≡ last_place 0 tokens.now }
{
    let mut at = 0;
    'tokens: for token in tokens {
        at = token.at;
    }
    at
}

// Returns the change by which an exception with this name is raised in place of a step. A step with a block stays, and what is
// before it never ends well.
fn raising(step: &Waiting, name: Name) -> Change
    ensures { result ≡ raising step.now name }
{
    if step.wait.has_block() {
        insertion(step.from, Piece::RaiseBefore(name))
    } else {
        replacement(step, Piece::Raise(name))
    }
}

// Returns the change by which an exception with this name is raised after a step, or at the start of its block.
fn raising_late(step: &Waiting, name: Name) -> Change
    ensures { result ≡ raising_late step.now name }
{
    if step.wait.has_block() {
        insertion_after(step.to, Piece::RaiseFirst(name))
    } else {
        insertion(step.to, Piece::ThenRaise(name))
    }
}

// Returns the change by which a step never ends.
fn hanging(step: &Waiting) -> Change
    ensures { result ≡ hanging step.now }
{
    if step.wait.has_block() {
        insertion(step.from, Piece::ForeverBefore)
    } else {
        replacement(step, Piece::Forever)
    }
}

// Returns the change that puts a piece in place of a step, up to the semicolon of the step.
fn replacement(step: &Waiting, piece: Piece) -> Change
    ensures { result ≡ replacement step.now piece }
{
    Change {
        from: step.from,
        to: step.to,
        piece,
    }
}

// Returns the change that puts a piece before a place, and leaves nothing out.
fn insertion(at: usize, piece: Piece) -> Change
    ensures { result ≡ insertion at piece }
{
    Change {
        from: at,
        to: at,
        piece,
    }
}

// Returns the change that puts a piece after the byte at a place, and leaves nothing out.
fn insertion_after(at: usize, piece: Piece) -> Change
    ensures { result ≡ insertion_after at piece }
{
    insertion(at.saturating_add(1), piece)
}

// Returns a single change.
fn single_change(alloc: Global, change: &Change) -> Result<Vec<Change>, AllocError>
    ensures { IfOk result (λ changes. changes.items ≡ change.now ∷ []) }
{
    let mut changes = Vec::new(alloc);
    let Change { from, to, piece } = *change;
    changes.push(Change { from, to, piece })?;
    Ok(changes)
}
