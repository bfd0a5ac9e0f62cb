ghost use Rattle.std.specs.Prelude.{◌≡◌, IfOk, IfErr, MatchResult};
ghost use Rattle.job_reader.specs.Refusals.{Spells};
ghost use Rattle.job_reader.specs.Kinds.{no_memory};
ghost use Rattle.commands.specs.Scaled.{IsMultiplied, IsScaled, IsScaleFault};

use job_edits::{FinerTicks, changed_text, finer_changes, sites};
use job_meaning::Clock;
use job_reader::{Job, JobFault, JobKind, read_job, spelled_tokens};
use std::alloc::{AllocError, Global};

/// Why a job text has no scaled text.
#[derive(Debug, Drop)]
pub enum ScaleFault {
    /// The text is refused, or memory runs out.
    Refused(JobFault),
    /// The text would be refused after its ticks were multiplied, for example because a number of ticks exceeds 1,000,000,000.
    TooLarge {
        /// The refusal. Its place is in the multiplied text.
        fault: JobFault,
        /// The multiplied text.
        text: Vec<u8>,
    },
}

impl From<JobFault> for ScaleFault {
    ghost use Rattle.commands.specs.declared.scaling.ScaleFault.TheVariants.{Refused};

    ghost from_gives = { λ fault e. e ≡ Refused fault };

    fn from(fault: JobFault) -> ScaleFault {
        ScaleFault::Refused(fault)
    }
}

/// Returns a job text with each number of ticks multiplied by a factor: those of `sleep`, `after` and `at`. A `pace` is repeated
/// so often in its place. Numbers that count something else, as those of `repeat`, `over` and `head`, stay, and so does the
/// layout. A text of format 1 becomes one of format 2, which has `repeat`. So a design whose tick is a second becomes one whose
/// tick is a millisecond.
pub fn scaled_text(alloc: Global, job_text: &[u8], factor: u64) -> Result<Vec<u8>, ScaleFault>
    ensures scaled { IfOk result (λ scaled. IsScaled job_text.now factor scaled.items) }
    ensures fault { IfErr result (IsScaleFault job_text.now factor) }
{
    let job = read_job(alloc, job_text)?;
    let text = multiplied(alloc, job_text, &job, factor)?;
    match read_job(alloc, text.as_slice()) {
        Ok(_) => Ok(text),
        Err(fault) => {
            if fault.kind == JobKind::NoMemory {
                return Err(ScaleFault::Refused(JobFault::from(AllocError)));
            }
            Err(ScaleFault::TooLarge { fault, text })
        }
    }
}

// Returns a job text with its ticks multiplied.
fn multiplied(alloc: Global, job_text: &[u8], job: &Job, factor: u64) -> Result<Vec<u8>, JobFault>
    requires { Spells job_text.now job.now }
    ensures { MatchResult result (λ text. IsMultiplied job_text.now factor text.items) (λ fault. fault ≡ no_memory) }
{
    let tokens = spelled_tokens(alloc, job_text, job)?;
    let sites = sites(alloc, tokens.as_slice())?;
    let finer_ticks = FinerTicks { factor, hair: 0 };
    let changes = finer_changes(
        alloc,
        Clock::of(job.text_format()),
        finer_ticks,
        sites.as_slice(),
    )?;
    Ok(changed_text(alloc, job_text, changes.as_slice())?)
}
