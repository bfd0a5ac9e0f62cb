ghost use Rattle.std.specs.Prelude.{◌≡◌};
ghost use Rattle.job_hints.specs.Advice.{block_sentence};

/// A block or a step that has another form than was written.
#[derive(Clone, Copy)]
pub enum BlockAdvice {
    /// A nursery with `at` or `fail`.
    NurseryHead,
    /// A `start` with a deadline, `shield` or `fail`.
    TaskHead,
    /// Another block that is neither a scope nor a nursery, with a deadline, `shield` or `fail`.
    OtherHead,
    /// A second `except` after a handler.
    SecondHandler,
    /// An `except` without the name of an exception.
    UnnamedHandler,
    /// A step without its semicolon.
    NoSemicolon,
    /// A `cancel` with the name of a task.
    TaskByName,
}

impl BlockAdvice {
    /// Returns the sentence, with its newline.
    pub fn text(self) -> &'static str
        ensures { result.now ≡ block_sentence self }
    {
        match self {
            BlockAdvice::NurseryHead => {
                "a nursery has neither `at` nor `fail`: put a scope around it, as in `scope NAME at 5 fail { nursery NAME { .. } }`\n"
            }
            BlockAdvice::TaskHead => {
                "a task has no deadline and no shield: put a scope into it, as in `start NAME { scope NAME after 5 { .. } }`\n"
            }
            BlockAdvice::OtherHead => {
                "only scopes and nurseries have deadlines and shields: put a scope into the block, as in `job NAME { scope NAME after 5 { .. } }`\n"
            }
            BlockAdvice::SecondHandler => {
                "a `try` has one handler: for another exception, put a second `try` around this one\n"
            }
            BlockAdvice::UnnamedHandler => "a handler names its exception: `except NAME { .. }`\n",
            BlockAdvice::NoSemicolon => "a `;` is missing after the step before it\n",
            BlockAdvice::TaskByName => {
                "a task cannot be cancelled by its name: put a scope into the task, and the `cancel` into that scope\n"
            }
        }
    }
}
