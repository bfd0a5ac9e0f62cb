ghost use Rattle.std.specs.Prelude.{ℕ, Err, IfOk, IfErr, MatchResult};
ghost use Rattle.job_tree.specs.Tree.{Tree};
ghost use Rattle.job_reader.specs.declared.fault.JobKind.{JobKind};
ghost use Rattle.job_reader.specs.Refusals.{Spells, IsRefused, IsFair, AnswersUnlessMemory};
ghost use Rattle.job_lint.specs.Linted.{AreWarnings, IsOkUnlessMemory};

use crate::around::in_job;
use crate::laws::law_keywords_have_places;
use crate::opened::Opened;
use crate::opening::opening_places;
use crate::walk::walk_steps;
use crate::warning::Warning;
use job_reader::{Job, JobFault, read_job, spelled_tokens};
use std::alloc::{AllocError, Global};

/// Returns the probable mistakes in the job that a text spells, in the order of the keywords that they are about. If the text
/// is refused, the error is the refusal, as `read_job` returns it. If memory runs out, the error has the kind `NoMemory`.
pub fn lints(alloc: Global, text: &[u8]) -> Result<Vec<Warning>, JobFault>
    // The warnings that are found are those of the job, each at its place.
    ensures found { IfOk result (λ warnings. AreWarnings text.now warnings.items) }
    // A refusal is the fault at that place, and there is no fault of an earlier kind.
    ensures refused { IfErr result (IsFair text.now) }
    // If the text spells a job, its warnings are found, unless memory runs out.
    ensures only { (job : Tree) → Spells text.now job → IsOkUnlessMemory result }
    // If the condition of a refusal holds, that refusal is returned, unless memory runs out.
    ensures exact { (kind : JobKind) (at : ℕ) → IsRefused text.now kind at
        → AnswersUnlessMemory result (Err (record { at = at; kind = kind })) }
{
    read_and_lint(alloc, text)
}

// Returns the warnings about a text, with a contract from which the clauses of `lints` follow.
fn read_and_lint(alloc: Global, text: &[u8]) -> Result<Vec<Warning>, JobFault>
    ensures { MatchResult result (λ warnings. AreWarnings text.now warnings.items) (IsFair text.now) }
{
    let job = read_job(alloc, text)?;
    let warnings = lints_of_job(alloc, text, &job)?;
    Ok(warnings)
}

// Returns the warnings of the job that a text spells.
fn lints_of_job(alloc: Global, text: &[u8], job: &Job) -> Result<Vec<Warning>, AllocError>
    requires { Spells text.now job.now }
    ensures { IfOk result (λ warnings. AreWarnings text.now warnings.items) }
{
    law_keywords_have_places();
    let tokens = spelled_tokens(alloc, text, job)?;
    let places = opening_places(alloc, tokens.as_slice())?;
    let mut found = Vec::new(alloc);
    let around = in_job(job.text_format());
    walk_steps(
        job.steps(),
        places.as_slice(),
        around,
        &Opened::Nothing,
        0,
        &mut found,
    )?;
    Ok(found)
}
