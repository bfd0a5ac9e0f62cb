ghost use Rattle.std.specs.Prelude.{◌≡◌, ◌∷◌, [], IfOk, OnOk, fold};
ghost use Rattle.job_tree.specs.Blocks.{cleaned_of, handled_of, step_of, steps_of};
ghost use Rattle.job_tree.specs.Names.{cleaned_names, handled_names, names_of};
ghost use Rattle.trio_text.specs.Uses.{
  Notes,
  NotesStep,
  NotesSteps,
  among,
  class_needed,
  classes_of,
  cleaned_exceptions,
  cleaned_nurseries,
  exceptions_of,
  handled_exceptions,
  handled_nurseries,
  known_in,
  known_of,
  noted,
  nurseries_of,
  plain_exceptions,
};

use crate::names::is_in_trio;
use indexmap::IndexSet;
use job_reader::Job;
use job_tree::{Body, Handler, Name, Step};
use std::alloc::{AllocError, Global};

// The names that the steps of a job use.
#[derive(Drop)]
pub(crate) struct Words {
    given: IndexSet<Name>,
    nurseries: IndexSet<Name>,
    raised: IndexSet<Name>,
}

impl Words {
    // Collects them from a job.
    pub(crate) fn of(alloc: Global, job: &Job) -> Result<Words, AllocError>
        ensures known { IfOk result (λ words. known_in words ≡ known_of job.now) }
        ensures raised { IfOk result (λ words. words.raised.keys ≡ classes_of job.now) }
    {
        let mut words = Words {
            given: IndexSet::new(alloc),
            nurseries: IndexSet::new(alloc),
            raised: IndexSet::new(alloc),
        };
        words.note_given(job.name())?;
        note_steps(&mut words, job.steps())?;
        Ok(words)
    }

    // Returns whether a task has this name, or what a step opens.
    pub(crate) fn gives(&self, name: Name) -> bool
        ensures { result ≡ among self.now.given.keys name }
    {
        self.given.contains(&name)
    }

    // Returns whether a nursery has this name.
    pub(crate) fn is_nursery(&self, name: Name) -> bool
        ensures { result ≡ among self.now.nurseries.keys name }
    {
        self.nurseries.contains(&name)
    }

    // Returns the names of the exceptions that are raised or handled, each once, in the order of the steps, without those that
    // Trio raises.
    pub(crate) fn raised_names(&self) -> &[Name]
        ensures { result.now ≡ self.now.raised.keys }
    {
        self.raised.as_slice()
    }

    // Records the name of a task, or of what a step opens.
    fn note_given(&mut self, name: Name) -> Result<(), AllocError>
        ensures { OnOk result (Notes (name ∷ []) [] [] self.old self.new) }
    {
        self.given.insert(name)?;
        Ok(())
    }

    // Records the name of an exception.
    fn note_raised(&mut self, name: Name) -> Result<(), AllocError>
        ensures { OnOk result (Notes [] [] (class_needed name) self.old self.new) }
    {
        if !is_in_trio(name) {
            self.raised.insert(name)?;
        }
        Ok(())
    }

    // Records the name of a nursery.
    fn note_nursery(&mut self, name: Name) -> Result<(), AllocError>
        ensures { OnOk result (Notes (name ∷ []) (name ∷ []) [] self.old self.new) }
    {
        self.nurseries.insert(name)?;
        self.note_given(name)?;
        Ok(())
    }

    // Records the exception that a step without a block raises.
    fn note_plain(&mut self, step: &Step) -> Result<(), AllocError>
        ensures { OnOk result (Notes [] [] (plain_exceptions (step_of step.now)) self.old self.new) }
    {
        match step {
            Step::Need { name, .. } => self.note_raised(*name)?,
            Step::Raise(name) => self.note_raised(*name)?,
            _ => {}
        }
        Ok(())
    }
}

// Records the names that the steps of a block use.
#[cycle(noting)]
fn note_steps(words: &mut Words, steps: &[Step]) -> Result<(), AllocError>
    ensures { OnOk result (NotesSteps (steps_of steps.now) words.old words.new) }
{
    let mut rest = steps;
    'steps: while let Some((first, others)) = rest.split_first() {
        note_step(words, first)?;
        rest = others;
    }
    Ok(())
}

#[cycle(noting)]
fn note_step(words: &mut Words, step: &Step) -> Result<(), AllocError>
    ensures { OnOk result (NotesStep (step_of step.now) words.old words.new) }
{
    match step {
        Step::Scope { name, body, .. } => note_named(words, *name, body),
        Step::Nursery { name, body, .. } => {
            words.note_nursery(*name)?;
            note_steps(words, body.as_slice())?;
            Ok(())
        }
        Step::Event { name, body } => note_named(words, *name, body),
        Step::Object { name, body, .. } => note_named(words, *name, body),
        Step::Ask { body, .. } => {
            note_steps(words, body.as_slice())?;
            Ok(())
        }
        Step::Start { name, body, .. } => note_named(words, *name, body),
        Step::Repeat { body, .. } => {
            note_steps(words, body.as_slice())?;
            Ok(())
        }
        Step::Try {
            body,
            handler,
            cleanup,
        } => {
            note_steps(words, body.as_slice())?;
            note_handler(words, handler)?;
            note_cleanup(words, cleanup)?;
            Ok(())
        }
        _ => {
            words.note_plain(step)?;
            Ok(())
        }
    }
}

// Records the name of what a step opens, or of the task that it starts, and the names that its block uses.
#[cycle(noting)]
fn note_named(words: &mut Words, name: Name, body: &Body) -> Result<(), AllocError>
    ensures { OnOk result (Notes (name ∷ names_of body.now) (nurseries_of body.now) (exceptions_of body.now) words.old words.new) }
{
    words.note_given(name)?;
    note_steps(words, body.as_slice())?;
    Ok(())
}

#[cycle(noting)]
fn note_handler(words: &mut Words, handler: &Option<Handler>) -> Result<(), AllocError>
    ensures { OnOk result (Notes (handled_names (handled_of handler.now)) (handled_nurseries (handled_of handler.now))
        (handled_exceptions (handled_of handler.now)) words.old words.new) }
{
    let Some(handler) = handler else {
        return Ok(());
    };
    words.note_raised(handler.name)?;
    note_steps(words, handler.body.as_slice())?;
    Ok(())
}

#[cycle(noting)]
fn note_cleanup(words: &mut Words, cleanup: &Option<Body>) -> Result<(), AllocError>
    ensures { OnOk result (Notes (cleaned_names (cleaned_of cleanup.now)) (cleaned_nurseries (cleaned_of cleanup.now))
        (cleaned_exceptions (cleaned_of cleanup.now)) words.old words.new) }
{
    let Some(cleanup) = cleanup else {
        return Ok(());
    };
    note_steps(words, cleanup.as_slice())?;
    Ok(())
}
