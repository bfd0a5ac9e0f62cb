ghost use Rattle.std.specs.Prelude.{◌≡◌, ◌++◌, None, IfOk, OnOk};
ghost use Rattle.job_edits.specs.Faults.{fails_of, late_fails_of, faults_of, raised_by, variants_with, variants_in};

use crate::waiting::{Wait, Waiting, waiting_steps};
use job_tokens::Token;
use job_tree::Name;
use std::alloc::{AllocError, Global};

/// What goes wrong at a waiting step.
#[derive(Clone, Copy)]
pub enum Fault {
    /// An exception with this name is raised in place of the step.
    Fails(Name),
    /// An exception with this name is raised after the step, or at the start of its block if it has one.
    FailsLate(Name),
    /// The step never ends.
    Hangs,
    /// The whole job is cancelled from outside during the step.
    Cancelled,
    /// A `need` finds no line, and raises the exception with this name.
    Misses(Name),
}

impl Fault {
    /// Returns the name of the exception that the fault raises, or `None` if it raises none.
    pub fn raised_name(self) -> Option<Name>
        ensures { result ≡ raised_by self }
    {
        match self {
            Fault::Fails(name) | Fault::FailsLate(name) | Fault::Misses(name) => Some(name),
            Fault::Hangs | Fault::Cancelled => None,
        }
    }
}

/// One copy or pass of a block that runs several times.
#[derive(Clone, Copy)]
pub struct BlockPart {
    /// Which of the blocks it is that `repeated_blocks` returns, counted from 0.
    pub block: usize,
    /// The name of the tasks that the block starts, or `None` for a `repeat`.
    pub name: Option<Name>,
    /// Which of the copies or passes of the block it is, counted from 0.
    pub index: u64,
    /// How many copies or passes the block has.
    pub count: u64,
}

/// A job text with a fault at one of its waiting steps.
#[derive(Clone, Copy)]
pub struct Variant {
    /// The step.
    pub step: Waiting,
    /// What goes wrong at it.
    pub fault: Fault,
    /// The copy or pass in which alone it goes wrong, or `None` if it goes wrong wherever the step runs.
    pub part: Option<BlockPart>,
}

/// Returns each fault of each waiting step of the job text with these tokens, in the order of the places of the steps. A `sleep`,
/// a `pace`, a `wait`, an `acquire`, a `send` and a `receive` can fail, fail late, hang and be cancelled; a `checkpoint` can do
/// the same except fail late, since it takes no time; a `forever` can fail and be cancelled; a `need` can only miss. A step fails,
/// and fails late, once with each of the exceptions with these names. The only error is that memory runs out.
pub fn variants(alloc: Global, names: &[Name], tokens: &[Token]) -> Result<Vec<Variant>, AllocError>
    ensures { IfOk result (λ variants. variants.items ≡ variants_in names.now tokens.now) }
{
    let steps = waiting_steps(alloc, tokens)?;
    let mut variants = Vec::new(alloc);
    'steps: for step in steps.as_slice() {
        let faults = faults_of(alloc, names, step.wait)?;
        push_each(&mut variants, step, faults.as_slice())?;
    }
    Ok(variants)
}

// Returns the faults of a step of this kind, which fails with the exceptions with these names.
pub(crate) fn faults_of(alloc: Global, names: &[Name], wait: Wait) -> Result<Vec<Fault>, AllocError>
    ensures { IfOk result (λ faults. faults.items ≡ faults_of names.now wait) }
{
    let mut faults = Vec::new(alloc);
    match wait {
        Wait::Sleep(_) | Wait::Pace(_) | Wait::Event(_) | Wait::Grant(_, _) => {
            push_fails(&mut faults, names)?;
            push_late_fails(&mut faults, names)?;
            faults.extend_from_slice(&[Fault::Hangs, Fault::Cancelled])?;
        }
        Wait::Checkpoint => {
            push_fails(&mut faults, names)?;
            faults.extend_from_slice(&[Fault::Hangs, Fault::Cancelled])?;
        }
        Wait::Forever => {
            push_fails(&mut faults, names)?;
            faults.push(Fault::Cancelled)?;
        }
        Wait::Need(_, name) => faults.push(Fault::Misses(name))?,
    }
    Ok(faults)
}

// Appends the faults with which a step raises each of these exceptions.
fn push_fails(faults: &mut Vec<Fault>, names: &[Name]) -> Result<(), AllocError>
    ensures { OnOk result (faults.new.items ≡ faults.old.items ++ fails_of names.now) }
{
    'names: for name in names {
        faults.push(Fault::Fails(*name))?;
    }
    Ok(())
}

// Appends the faults with which each of these exceptions is raised after a step.
fn push_late_fails(faults: &mut Vec<Fault>, names: &[Name]) -> Result<(), AllocError>
    ensures { OnOk result (faults.new.items ≡ faults.old.items ++ late_fails_of names.now) }
{
    'names: for name in names {
        faults.push(Fault::FailsLate(*name))?;
    }
    Ok(())
}

// Appends these faults of a step, each wherever the step runs.
fn push_each(
    variants: &mut Vec<Variant>,
    step: &Waiting,
    faults: &[Fault],
) -> Result<(), AllocError>
    ensures { OnOk result (variants.new.items ≡ variants.old.items ++ variants_with None step.now faults.now) }
{
    'faults: for fault in faults {
        let wait = step.wait;
        variants.push(Variant {
            step: Waiting {
                from: step.from,
                to: step.to,
                wait,
            },
            fault: *fault,
            part: None,
        })?;
    }
    Ok(())
}
