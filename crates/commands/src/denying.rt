ghost use Rattle.std.specs.Prelude.{◌≡◌, ◌≤◌, List, ℕ, codes, length, true, IfOk};
ghost use Rattle.job_meaning.specs.declared.limits.TheConstants.{MAX_INPUT};
ghost use Rattle.outcomes.specs.Views.{options_held};
ghost use Rattle.commands.specs.Outputs.{plain_options};
ghost use Rattle.commands.specs.Mets.{IsFaultsMet, IsRacesMet, answer_of, denied_answer};

use crate::met::Met;
use crate::{FaultsVerdict, Form, RacesVerdict, faults, races};
use job_answers::{Answer, Question};
use job_reader::Name;
use job_runner::NoGate;
use outcomes::{Deny, Options};
use std::alloc::{AllocError, Global};
use std::thread::Threads;

// Returns the name of the exception that a failing step raises.
fn fault_name() -> Name
    ensures { result ≡ codes "Fault" }
{
    match Name::new(b"Fault") {
        Some(name) => name,
        None => unreachable!(),
    }
}

// Returns the options of `faults` with which each step that fails raises `Fault`, and these outcomes are denied.
pub(crate) fn plain_options(alloc: Global, deny: Deny) -> Result<Options, AllocError>
    ensures { IfOk result (λ options. options_held options ≡ plain_options deny) }
{
    let mut names = Vec::new(alloc);
    names.push(fault_name())?;
    Ok(Options {
        names,
        each: false,
        brief: false,
        deny,
    })
}

// Returns whether `races` denies nothing.
pub(crate) fn no_races<R: Threads + Sync>(
    rt: &R,
    alloc: Global,
    question: &Question<'_>,
) -> Result<Met, AllocError>
    requires { length question.now.input.now ≤ MAX_INPUT }
    ensures { IfOk result (λ met. IsRacesMet question.now.text.now question.now.input.now question.now.settings.limit (answer_of met)) }
{
    let Answer { verdict, bytes: _ } = races(rt, alloc, question, true, Form::Text, &NoGate)?;
    match verdict {
        RacesVerdict::Lines { denied } => Ok(denial_or_yes(denied)),
        RacesVerdict::JobRefused(_) | RacesVerdict::Limit | RacesVerdict::NoFinerTicks => {
            Ok(Met::Untold)
        }
    }
}

// Returns whether `faults` denies nothing of these kinds.
pub(crate) fn no_faults<R: Threads + Sync>(
    rt: &R,
    alloc: Global,
    question: &Question<'_>,
    kinds: Deny,
) -> Result<Met, AllocError>
    requires { length question.now.input.now ≤ MAX_INPUT }
    ensures { IfOk result (λ met. IsFaultsMet question.now.text.now question.now.input.now question.now.settings.limit kinds (answer_of met)) }
{
    let options = plain_options(alloc, kinds)?;
    let Answer { verdict, bytes: _ } = faults(rt, alloc, question, &options, Form::Text, &NoGate)?;
    match verdict {
        FaultsVerdict::Lines { denied } => Ok(denial_or_yes(denied)),
        FaultsVerdict::JobRefused(_) => Ok(Met::Untold),
    }
}

// Returns that these lines are denied, or that the expectation is met if there are none.
fn denial_or_yes(denied: Vec<u8>) -> Met
    ensures { answer_of result ≡ denied_answer denied.items }
{
    if denied.is_empty() {
        Met::Yes
    } else {
        Met::Denied(denied)
    }
}
