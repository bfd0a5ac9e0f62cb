ghost use Rattle.std.specs.Prelude.{◌≡◌, ◌∷◌, List, OnOk, IfOk};
ghost use Rattle.std.specs.Option.{option_map, option_copied};
ghost use Rattle.job_tree.specs.Blocks.{handled_of, cleaned_of};
ghost use Rattle.exceptions.specs.Held.{exc_of};
ghost use Rattle.job_meaning.specs.Rest.{steps_left, in_try};
ghost use Rattle.job_meaning.specs.Walk.{handler_exc as raised_in_handler};
ghost use Rattle.job_tree.specs.Tree.{unhandled};
ghost use Rattle.turn_semantics.specs.Midway.{Place};
ghost use Rattle.turn_semantics.specs.Steps.{onward, step_try};
ghost use Rattle.exceptions.specs.Split.{keep, drop, named};
ghost use Rattle.task_machine.specs.Handling.{rest_of, rest_if};
ghost use Rattle.task_machine.specs.Fitting.{blocks_of, received_in};
ghost use Rattle.task_machine.specs.Frames.{frames_of, unboxed_exc};
ghost use Rattle.task_machine.specs.Stops.{Numbers};

use crate::boxing::{box_exc, unbox_exc};
use crate::frame::Frame;
use crate::task::Task;
use block_exits::handler_exc;
use exceptions::{Exc, Match, split};
use job_tree::{Body, Handler, Name};
use std::alloc::{AllocError, Global};

impl<'a> Task<'a> {
    // A `try` begins.
    pub(crate) fn begin_try(
        &mut self,
        body: &'a Body,
        handler: &'a Option<Handler>,
        cleanup: &'a Option<Body>,
    ) -> Result<(), AllocError>
        ensures stays { OnOk result (self.new ≡ record self.old { frames = self.new.frames }) }
        ensures blocks { OnOk result (blocks_of self.new.frames.items ≡ blocks_of self.old.frames.items) }
        ensures received { OnOk result (received_in self.new.frames.items ≡ received_in self.old.frames.items) }
        ensures frames { OnOk result ((numbers : Numbers) → frames_of numbers self.new.frames.items
            ≡ steps_left body.now ∷ in_try (handled_of handler.now) (cleaned_of cleanup.now) ∷ frames_of numbers self.old.frames.items) }
    {
        self.push(Frame::Try {
            handler: handler.as_ref(),
            cleanup,
        })?;
        self.push(Frame::Steps(body.as_slice()))
    }

    // The body of a `try` has ended with this exception or none: its handler runs if it matches, or else its cleanup.
    // Returns the exception with which the task continues.
    pub(crate) fn end_try(
        &mut self,
        handler: Option<&'a Handler>,
        cleanup: &'a Option<Body>,
        exc: Option<Exc>,
    ) -> Result<Option<Exc>, AllocError>
        ensures stays { OnOk result (self.new ≡ record self.old { frames = self.new.frames }) }
        ensures blocks { OnOk result (blocks_of self.new.frames.items ≡ blocks_of self.old.frames.items) }
        ensures received { OnOk result (received_in self.new.frames.items ≡ received_in self.old.frames.items) }
        ensures step { IfOk result (λ after. (numbers : Numbers) (ps : List Place) →
            step_try (handled_of (option_copied handler.entry)) (cleaned_of cleanup.now) (frames_of numbers self.old.frames.items) ps
            (option_map exc_of exc)
            ≡ onward (frames_of numbers self.new.frames.items) ps (option_map exc_of after)) }
    {
        let Some(handler) = handler else {
            return self.begin_cleanup(cleanup, exc);
        };
        let Some(exc) = exc else {
            self.without_handler(cleanup)?;
            return Ok(None);
        };
        let Some(rest) = rest_at(self.alloc, handler.name, &exc)? else {
            self.without_handler(cleanup)?;
            return Ok(Some(exc));
        };
        drop(exc);
        self.push(Frame::Handler { rest, cleanup })?;
        self.push(Frame::Steps(handler.body.as_slice()))?;
        Ok(None)
    }

    // A handler has ended with this exception or none. Returns the exception with which the task continues.
    pub(crate) fn end_handler(
        &mut self,
        rest: Option<Box<Exc>>,
        cleanup: &'a Option<Body>,
        exc: Option<Exc>,
    ) -> Result<Option<Exc>, AllocError>
        ensures stays { OnOk result (self.new ≡ record self.old { frames = self.new.frames }) }
        ensures blocks { OnOk result (blocks_of self.new.frames.items ≡ blocks_of self.old.frames.items) }
        ensures received { OnOk result (received_in self.new.frames.items ≡ received_in self.old.frames.items) }
        ensures frames { OnOk result ((numbers : Numbers) → frames_of numbers self.new.frames.items
            ≡ in_try unhandled (cleaned_of cleanup.now) ∷ frames_of numbers self.old.frames.items) }
        ensures exc { IfOk result (λ after. option_map exc_of after ≡ raised_in_handler (option_map exc_of exc) (option_map exc_of (unboxed_exc rest))) }
    {
        self.without_handler(cleanup)?;
        handler_exc(self.alloc, exc, unbox_exc(rest))
    }

    // Continues after the handler of a `try`.
    fn without_handler(&mut self, cleanup: &'a Option<Body>) -> Result<(), AllocError>
        ensures stays { OnOk result (self.new ≡ record self.old { frames = self.new.frames }) }
        ensures blocks { OnOk result (blocks_of self.new.frames.items ≡ blocks_of self.old.frames.items) }
        ensures received { OnOk result (received_in self.new.frames.items ≡ received_in self.old.frames.items) }
        ensures frames { OnOk result ((numbers : Numbers) → frames_of numbers self.new.frames.items
            ≡ in_try unhandled (cleaned_of cleanup.now) ∷ frames_of numbers self.old.frames.items) }
    {
        self.push(Frame::Try {
            handler: None,
            cleanup,
        })
    }

    // The cleanup of a `try` begins, if it has one.
    fn begin_cleanup(
        &mut self,
        cleanup: &'a Option<Body>,
        exc: Option<Exc>,
    ) -> Result<Option<Exc>, AllocError>
        ensures stays { OnOk result (self.new ≡ record self.old { frames = self.new.frames }) }
        ensures blocks { OnOk result (blocks_of self.new.frames.items ≡ blocks_of self.old.frames.items) }
        ensures received { OnOk result (received_in self.new.frames.items ≡ received_in self.old.frames.items) }
        ensures step { IfOk result (λ after. (numbers : Numbers) (ps : List Place) →
            step_try unhandled (cleaned_of cleanup.now) (frames_of numbers self.old.frames.items) ps (option_map exc_of exc)
            ≡ onward (frames_of numbers self.new.frames.items) ps (option_map exc_of after)) }
    {
        let Some(body) = cleanup else {
            return Ok(exc);
        };
        let outcome = box_exc(self.alloc, exc)?;
        self.push(Frame::Cleanup { outcome })?;
        self.push(Frame::Steps(body.as_slice()))?;
        Ok(None)
    }
}

// Returns the part of an exception that a handler with this name does not handle, in a box, or `None` if it handles nothing of
// it.
fn rest_at(alloc: Global, name: Name, exc: &Exc) -> Result<Option<Option<Box<Exc>>>, AllocError>
    ensures { IfOk result (λ rest. option_map rest_of rest ≡ rest_if (keep (named name) (exc_of exc.now)) (drop (named name) (exc_of exc.now))) }
{
    let sides = split(alloc, exc.copy(alloc)?, &Match::Name(name))?;
    let Some(rest) = rest_if(sides) else {
        return Ok(None);
    };
    let rest = box_exc(alloc, rest)?;
    Ok(Some(rest))
}

// Returns the second of two sides, if there is a first one.
fn rest_if(sides: (Option<Exc>, Option<Exc>)) -> Option<Option<Exc>>
    ensures { option_map (λ rest. option_map exc_of rest) result ≡ rest_if (option_map exc_of sides.0) (option_map exc_of sides.1) }
{
    let (matched, rest) = sides;
    match matched {
        Some(_) => Some(rest),
        None => None,
    }
}
