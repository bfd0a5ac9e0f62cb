ghost use Rattle.std.specs.Prelude.{◌≡◌, [], false, length};
ghost use Rattle.workers.specs.Claims.{requests_of};
ghost use Rattle.workers.specs.WorkerStates.{IsFresh, IsFinished, IsNoted};

use crate::gate::Gate;
use crate::{Claims, Pass};
use input_lines::{Answer, Request, answer};
use std::alloc::Global;

// An answer, and the number of its request in the batch.
#[derive(Drop)]
pub(crate) struct Numbered<'a> {
    pub(crate) number: usize,
    pub(crate) answer: Answer<'a>,
}

// The state of one worker: its ticket, its answers, and whether memory ran out for it.
#[derive(Drop)]
pub(crate) struct WorkerState<'a> {
    pub(crate) pass: Pass,
    pub(crate) answered: Vec<Numbered<'a>>,
    pub(crate) refused: bool,
}

impl<'a> WorkerState<'a> {
    // Creates a worker that has answered nothing yet.
    pub(crate) fn new(alloc: Global, pass: Pass) -> WorkerState<'a>
        ensures pass { result.pass ≡ pass }
        ensures answered { result.answered.items ≡ [] }
        ensures refused { result.refused ≡ false }
    {
        WorkerState {
            pass,
            answered: Vec::new(alloc),
            refused: false,
        }
    }

    // Draws requests until none is left, and computes each. Calls the gate before and after each request.
    pub(crate) fn run<G: Gate>(
        &mut self,
        alloc: Global,
        requests: &[Request<'a>],
        claims: &Claims,
        gate: &G,
    )
        requires count { requests_of claims.now ≡ length requests.now }
        requires fresh { IsFresh claims.now self.old }
        ensures { IsFinished requests.entry.now claims.now self.new }
    {
        'draws: while let Some(number) = claims.claim(&mut self.pass) {
            gate.before(number);
            self.note(alloc, number, &requests[number]);
            gate.after(number);
        }
    }

    // Computes a request, and stores its answer with its number, or that memory runs out.
    fn note(&mut self, alloc: Global, number: usize, request: &Request<'a>)
        ensures { IsNoted request.entry.now number self.old self.new }
    {
        let Ok(answer) = answer(alloc, &request.kernel, request.part) else {
            self.refused = true;
            return;
        };
        if self.answered.push(Numbered { number, answer }).is_err() {
            self.refused = true;
        }
    }
}
