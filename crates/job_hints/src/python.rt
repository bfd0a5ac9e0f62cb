ghost use Rattle.std.specs.Prelude.{◌≡◌};
ghost use Rattle.job_hints.specs.Advice.{python_sentence};

/// What Python writes in another way than a job, or what only Python has.
#[derive(Clone, Copy)]
pub enum PythonSyntax {
    /// A dotted name, such as `trio.sleep`.
    NoDots,
    /// A string in single quotes.
    DoubleQuotes,
    /// A name with a hyphen.
    NoHyphens,
    /// Parentheses after a word.
    NoParentheses,
    /// The colon before a block of Python.
    NoColons,
    /// Several exceptions in one handler.
    OneException,
    /// The star of `except*`.
    NoStars,
    /// The `=` of an assignment or a comparison.
    NoVariables,
    /// The comma of a list.
    NoLists,
}

impl PythonSyntax {
    /// Returns the sentence, with its newline.
    pub fn text(self) -> &'static str
        ensures { result.now ≡ python_sentence self }
    {
        match self {
            PythonSyntax::NoDots => {
                "Trio's names are written here without `trio.`: `sleep 1;`, `scope NAME after 5 { .. }`, `nursery NAME { .. }`\n"
            }
            PythonSyntax::DoubleQuotes =>
                "a string is written in double quotes, as in `find \"error\";`\n",
            PythonSyntax::NoHyphens =>
                "a name has letters, digits and `_`: `my_job`, and not `my-job`\n",
            PythonSyntax::NoParentheses =>
                "a step has no parentheses: `sleep 1;`, and not `sleep(1)`\n",
            PythonSyntax::NoColons => {
                "a block is written between braces, without a colon: `scope work after 5 { .. }`\n"
            }
            PythonSyntax::OneException => {
                "a handler has one name: for another one, put a second `try` around this one\n"
            }
            PythonSyntax::NoStars => {
                "`except NAME { .. }` is Python's `except*` already: leave out the star\n"
            }
            PythonSyntax::NoVariables =>
                "there are no variables: a job has steps and blocks alone\n",
            PythonSyntax::NoLists => {
                "there are no lists: each step ends with `;`, as in `cancel first; cancel second;`\n"
            }
        }
    }
}
