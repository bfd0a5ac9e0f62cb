ghost use Rattle.std.specs.Prelude.{◌≡◌};
ghost use Rattle.job_lint.specs.Warnings.{counts_ticks, in_block, in_cleanup, in_handler, in_job};

use job_reader::Format;

// What encloses a block.
#[derive(Clone, Copy)]
pub(crate) struct Around {
    // The job counts time by whole ticks.
    pub in_ticks: bool,
    // The block is in a cleanup, at any depth.
    pub cleanup: bool,
    // The block is in a cleanup, and in no shield that is inside that cleanup.
    pub exposed: bool,
    // The block is in a cleanup or a handler, at any depth, of a job that counts time by whole ticks.
    pub late: bool,
    // Something outside the block can cancel it.
    pub cancellable: bool,
}

impl Around {
    // Returns what encloses the block of a scope or nursery, with or without a shield, and whether something can cancel the scope
    // or nursery itself.
    pub(crate) fn in_block(self, shield: bool, cancelled: bool) -> Around
        ensures { result ≡ in_block shield cancelled self }
    {
        if shield {
            Around {
                exposed: false,
                cancellable: cancelled,
                ..self
            }
        } else {
            Around {
                cancellable: cancelled || self.cancellable,
                ..self
            }
        }
    }

    // Returns what encloses the block of a handler.
    pub(crate) fn in_handler(self) -> Around
        ensures { result ≡ in_handler self }
    {
        Around {
            late: self.in_ticks,
            ..self
        }
    }

    // Returns what encloses the block of a cleanup.
    pub(crate) fn in_cleanup(self) -> Around
        ensures { result ≡ in_cleanup self }
    {
        Around {
            cleanup: true,
            exposed: true,
            late: self.in_ticks,
            ..self
        }
    }
}

// Returns what encloses the block of a job of this format.
pub(crate) fn in_job(format: Format) -> Around
    ensures { result ≡ in_job format }
{
    Around {
        in_ticks: counts_ticks(format),
        cleanup: false,
        exposed: false,
        late: false,
        cancellable: false,
    }
}

// Returns whether a job of this format counts time by whole ticks.
fn counts_ticks(format: Format) -> bool
    ensures { result ≡ counts_ticks format }
{
    match format {
        Format::One | Format::Two => true,
        Format::Three => false,
    }
}
