ghost use Rattle.std.specs.Prelude.{◌≡◌, IfOk, IfErr, OnOk};
ghost use Rattle.job_reader.specs.Refusals.{format_of, IsReadTo, IsOfSomeJob, IsFair, Spells};
ghost use Rattle.job_reader.specs.Drafts.{IsDraftTo};

use crate::fault::{JobFault, JobKind, refuse_at};
use crate::job::Job;
use crate::{given_twice, reserved_name, size_of, stray_use};
use job_syntax::{Role, job_at};
use job_tokens::Token;
use job_tree::{Body, Format, Name};
use std::alloc::{AllocError, Global};

/// A job that the last checks have not seen yet, with its text, its tokens and their roles.
#[derive(Drop)]
pub struct Draft<'t> {
    text: &'t [u8],
    format: Format,
    tokens: Vec<Token>,
    roles: Vec<Role>,
    name: Name,
    steps: Body,
}

impl<'t> Draft<'t> {
    /// Makes the draft of the job with these tokens. The caller must ensure that these are all the tokens of the
    /// text, that the text passed the checks up to the depth of blocks, and that the roles are those of the tokens.
    /// The only error is that memory runs out.
    pub fn new(
        alloc: Global,
        text: &'t [u8],
        format: Format,
        tokens: Vec<Token>,
        roles: Vec<Role>,
    ) -> Result<Draft<'t>, AllocError>
        requires format { format ≡ format_of text.now }
        requires read { IsReadTo 7 text.now tokens.items }
        requires of_some_job { IsOfSomeJob format tokens.items roles.items }
        ensures draft { IfOk result (λ draft. IsDraftTo 7 text.now draft) }
    {
        let Some(job) = job_at(alloc, &tokens)? else {
            unreachable!()
        };
        let (name, steps) = job;
        Ok(Draft {
            text,
            format,
            tokens,
            roles,
            name,
            steps,
        })
    }

    /// Checks that no name is given twice. Requires that the checks before this one passed. The error is the first
    /// such name, or that memory runs out.
    pub fn check_given(&self, alloc: Global) -> Result<(), JobFault>
        requires { IsDraftTo 7 self.now.text.now self.now }
        ensures ok { OnOk result (IsDraftTo 8 self.now.text.now self.now) }
        ensures err { IfErr result (IsFair self.now.text.now) }
    {
        let found = given_twice(alloc, &self.tokens, &self.roles)?;
        refuse_at(found, JobKind::Twice)
    }

    /// Checks that each step that uses a name uses that of something of its kind around it, as a `cancel` that of an enclosing
    /// scope or nursery. Requires that the checks before this one passed. The error is the first that does not.
    pub fn check_uses(&self) -> Result<(), JobFault>
        requires { IsDraftTo 8 self.now.text.now self.now }
        ensures ok { OnOk result (IsDraftTo 9 self.now.text.now self.now) }
        ensures err { IfErr result (IsFair self.now.text.now) }
    {
        let found = stray_use(self.steps.as_slice(), &self.tokens, &self.roles);
        refuse_at(found, JobKind::NotEnclosing)
    }

    /// Checks that no name is reserved. Requires that the checks before this one passed. The error is the first
    /// name that is.
    pub fn check_reserved(&self) -> Result<(), JobFault>
        requires { IsDraftTo 9 self.now.text.now self.now }
        ensures ok { OnOk result (IsDraftTo 10 self.now.text.now self.now) }
        ensures err { IfErr result (IsFair self.now.text.now) }
    {
        let found = reserved_name(&self.tokens, &self.roles);
        refuse_at(found, JobKind::Reserved)
    }

    /// Checks that the job has no more step instances than its format allows. Requires that the checks before this
    /// one passed.
    pub fn check_size(&self) -> Result<(), JobFault>
        requires { IsDraftTo 10 self.now.text.now self.now }
        ensures ok { OnOk result (IsDraftTo 11 self.now.text.now self.now) }
        ensures err { IfErr result (IsFair self.now.text.now) }
    {
        if size_of(self.steps.as_slice()) > self.format.most_steps() {
            return Err(JobFault {
                at: 0,
                kind: JobKind::TooLarge,
            });
        }
        Ok(())
    }

    /// Returns the job. Requires that all checks passed. The text spells this job.
    pub fn into_job(self) -> Job
        requires { IsDraftTo 11 self.text.now self }
        ensures { Spells self.entry.text.now result }
    {
        Job::new(self.format, self.name, self.steps)
    }
}
