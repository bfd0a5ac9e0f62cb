ghost use Rattle.std.specs.Prelude.{◌≡◌};
ghost use Rattle.job_hints.specs.Advice.{advice_text};

use crate::block::BlockAdvice;
use crate::number::NumberAdvice;
use crate::python::PythonSyntax;
use crate::shared::ObjectWord;
use crate::words::{OtherWord, TrioWord};

/// A hint that is always the same sentence.
#[derive(Clone, Copy)]
pub enum Advice {
    /// The first line ends with a carriage return and a newline.
    CarriageReturn,
    /// The first line ends with a blank.
    BlankAfterVersion,
    /// The first line has the number of no format.
    UnknownFormat,
    /// The text begins with another line than that of its format.
    NoFirstLine,
    /// The text begins with a byte order mark.
    ByteOrderMark,
    /// What is there would begin a comment in format 3.
    NewerComment,
    /// What is there begins a comment in other languages.
    CommentSign,
    /// A fraction of a tick.
    WholeTicks,
    /// What is there would be allowed in format 2.
    NewerFormat,
    /// What is there would be allowed in format 3, and not in format 2.
    NewestFormat,
    /// A job, or a block or step that has a name, without one.
    Unnamed,
    /// The words in the head of a scope in another order.
    HeadOrder,
    /// A `start` where none may be.
    StartInside,
    /// A block or a step that has another form.
    Block(BlockAdvice),
    /// A number that has another form, or is out of its range.
    Number(NumberAdvice),
    /// What is there is Python.
    Python(PythonSyntax),
    /// A word of a program on Trio.
    Trio(TrioWord),
    /// What is called in another way, of limiters and channels.
    Object(ObjectWord),
    /// A word of another language or library.
    Other(OtherWord),
}

impl Advice {
    /// Returns the sentence, with its newline.
    pub fn text(self) -> &'static str
        ensures { result.now ≡ advice_text self }
    {
        match self {
            Advice::CarriageReturn =>
                "its line ends are carriage returns and newlines: save it with newlines alone\n",
            Advice::BlankAfterVersion =>
                "a blank follows the number: the first line ends right after it\n",
            Advice::UnknownFormat =>
                "the formats are 1, 2 and 3: begin a new job text with the line `trio-job 3`\n",
            Advice::NoFirstLine =>
                "the line with the format is missing: begin a new job text with the line `trio-job 3`\n",
            Advice::ByteOrderMark =>
                "the text begins with a byte order mark: save it as plain ASCII\n",
            Advice::NewerComment =>
                "format 3 has comments: begin the job text with the line `trio-job 3`\n",
            Advice::CommentSign => "a comment begins with `#`, in a job text of format 3\n",
            Advice::WholeTicks =>
                "times are whole ticks: choose a smaller tick, and multiply every number\n",
            Advice::NewerFormat =>
                "format 2 has this: begin the job text with the line `trio-job 2`\n",
            Advice::NewestFormat =>
                "format 3 has this: begin the job text with the line `trio-job 3`\n",
            Advice::Unnamed =>
                "each job, scope, nursery, event, limiter, channel and start has a name, as in `scope work after 5 { .. }`\n",
            Advice::HeadOrder =>
                "the head of a scope is `scope NAME after N shield fail`, in this order\n",
            Advice::StartInside => {
                "a `start` is directly inside a nursery, in format 3 also in a `repeat` without `over` there: `nursery NAME { repeat 3 { start NAME { .. } } }`\n"
            }
            Advice::Block(advice) => advice.text(),
            Advice::Number(advice) => advice.text(),
            Advice::Python(syntax) => syntax.text(),
            Advice::Trio(word) => word.text(),
            Advice::Object(word) => word.text(),
            Advice::Other(word) => word.text(),
        }
    }
}
