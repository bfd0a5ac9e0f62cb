ghost use Rattle.std.specs.Prelude.{◌≡◌};
ghost use Rattle.job_tree.specs.Blocks.{steps_of};
ghost use Rattle.job_tree.specs.Formats.{number_of, in_format};
ghost use Rattle.job_tree.specs.InRange.{IsInRange};
ghost use Rattle.job_tree.specs.Names.{size_of};
ghost use Rattle.job_reader.specs.Jobs.{IsReadable};

use crate::size_of;
use job_tree::{Body, Format, Name, Step};
use std::marker::Model;

/// A job that a text spells. In contracts, it is the tree of the job, and the canonical text of the job spells that tree. So no
/// name is given twice, each `start` is directly in the body of a nursery or in a `repeat` there, the numbers are in their
/// ranges, and the job has no more step instances than its format allows.
#[derive(Drop)]
pub struct Job {
    format: Format,
    name: Name,
    steps: Body,
}

impl Model for Job {
    ghost use Rattle.job_tree.specs.Tree.{Tree};
    ghost use Rattle.job_tree.specs.TreeCode.{tree_code};
    ghost use Rattle.job_reader.specs.Jobs.{IsReadable};

    ghost Value = { Tree };

    ghost coded = { tree_code };

    ghost view = { λ j. record { format = j.format; name = j.name; steps = j.steps } };

    ghost invariant = { λ j. IsReadable (record { format = j.format; name = j.name; steps = j.steps }) };
}

impl Job {
    // Makes the job with this format, name and steps. Requires that a text spells it.
    pub(crate) fn new(format: Format, name: Name, steps: Body) -> Job
        requires { IsReadable (record { format = format; name = name; steps = steps }) }
        ensures { result ≡ record { format = format; name = name; steps = steps } }
    {
        Job {
            format,
            name,
            steps,
        }
    }

    /// Returns the number in the first line of the job's text: 1, 2 or 3 for `trio-job 1`, `trio-job 2` or `trio-job 3`. Does not
    /// allocate.
    pub fn format(&self) -> u64
        ensures { result ≡ number_of self.now.format }
    {
        self.format.number()
    }

    /// Returns the format of the job's text.
    pub fn text_format(&self) -> Format
        ensures { result ≡ self.now.format }
    {
        self.format
    }

    /// Returns the name of the job, which is also the name of its root task.
    pub fn name(&self) -> Name
        ensures { result ≡ self.now.name }
    {
        self.name
    }

    /// Returns the steps of the root task, in order. The contract adds what holds of each job: its numbers are in their ranges,
    /// and its canonical text spells it.
    pub fn steps(&self) -> &[Step]
        ensures steps { steps_of result.now ≡ self.now.steps }
        ensures in_range { IsInRange self.now }
        ensures spelled { IsReadable self.now }
    {
        self.steps.as_slice()
    }

    /// Returns the number of step instances of the job. Each step counts once; a `start .. over K` counts K times together with
    /// its body; a `repeat N` counts once, and for each of its N passes once more with its body.
    pub fn size(&self) -> u64
        ensures { result ≡ size_of self.now.steps }
    {
        size_of(self.steps())
    }

    /// Returns the job with the same name and steps in this format. If the job has a newer format, it is returned
    /// unchanged. Does not allocate.
    pub fn in_format(self, format: Format) -> Job
        ensures { result ≡ in_format format self }
    {
        Job::new(format.newer(self.format), self.name, self.steps)
    }
}
