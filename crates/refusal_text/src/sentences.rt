ghost use Rattle.std.specs.Prelude.{◌≡◌};
ghost use Rattle.refusal_text.specs.Sentences.{sentence_of, stray_sentence, byte_sentence, token_sentence, expected_sentence};

use job_reader::{JobKind, TargetKind};
use job_syntax::Nonterminal;

// Returns the sentence for a refusal of this kind at a place with this byte (`None` at the end of the text), where the grammar
// expects this nonterminal. `used` is what the step uses whose name nothing around it has.
pub(crate) fn sentence_of(
    kind: JobKind,
    byte: Option<u8>,
    asked: Option<Nonterminal>,
    used: TargetKind,
) -> &'static str
    ensures { result.now ≡ sentence_of kind byte asked used }
{
    match kind {
        JobKind::TooLong => "the job text has more than 65536 bytes",
        JobKind::NotAscii => byte_sentence(byte),
        JobKind::Version =>
            "a job text begins with the line `trio-job 1`, `trio-job 2` or `trio-job 3`, ended by a newline alone",
        JobKind::Token => token_sentence(byte),
        JobKind::Number => "a number that is out of its range or has a leading zero",
        JobKind::Syntax => expected_sentence(asked),
        JobKind::Depth => "blocks are nested more than 32 deep",
        JobKind::Twice =>
            "this name was given before: jobs, scopes, nurseries, events, limiters, channels and starts need names of their own",
        JobKind::NotEnclosing => stray_sentence(used),
        JobKind::Reserved =>
            "this name is reserved: a name must not be a keyword or `Cancelled`, and `TooSlow` is allowed only after `except`",
        JobKind::TooLarge =>
            "the job has more than 1000000 steps, in format 1 more than 100000, the copies that `over` makes and the passes of `repeat` counted",
        JobKind::NoMemory => "no memory",
    }
}

// Returns that a name is that of nothing around it.
fn stray_sentence(used: TargetKind) -> &'static str
    ensures { result.now ≡ stray_sentence used }
{
    match used {
        TargetKind::Scope => "no enclosing scope or nursery has this name",
        TargetKind::Event => "no enclosing event has this name",
        TargetKind::Limiter => "no enclosing limiter has this name",
        TargetKind::Channel => "no enclosing channel has this name",
    }
}

// Returns why a text has no such byte.
fn byte_sentence(byte: Option<u8>) -> &'static str
    ensures { result.now ≡ byte_sentence byte }
{
    match byte {
        Some(b) if b < 128 => "a control character: a job of format 3 is plain text",
        _ => "this byte is not ASCII",
    }
}

// Returns why no token begins with this byte.
fn token_sentence(byte: Option<u8>) -> &'static str
    ensures { result.now ≡ token_sentence byte }
{
    match byte {
        Some(b'"') => {
            "a string of 1 to 64 bytes was expected: printable, or `\\\"`, `\\\\` or `\\x` and two of 0-9a-f, and closed by a quote"
        }
        Some(b'0'..=b'9') => "a letter or `_` directly follows this number",
        Some(b'A'..=b'Z' | b'a'..=b'z') => "this word has more than 32 bytes",
        _ => "a word, a number, a string or one of `{`, `}` and `;` was expected",
    }
}

// Returns what the grammar expects at a place; `None` is the end of the text.
fn expected_sentence(nonterminal: Option<Nonterminal>) -> &'static str
    ensures { result.now ≡ expected_sentence nonterminal }
{
    match nonterminal {
        None => "expected the text's end: nothing may follow the job's `}`",
        Some(Nonterminal::Job) => "expected `job NAME { .. }`",
        Some(Nonterminal::Steps) => {
            "expected a step, as `sleep 1;`, or `}` (a `start` only directly inside a nursery or a `repeat` there)"
        }
        Some(Nonterminal::Items) => "expected a step, as `sleep 1;`, a `start NAME { .. }` or `}`",
        Some(Nonterminal::StepsTail | Nonterminal::ItemsTail) => {
            "expected `except NAME { .. }` or `finally { .. }`"
        }
        Some(Nonterminal::StepsCleanup) => "expected `finally { .. }`, a step or `}`",
        Some(Nonterminal::ItemsCleanup) => "expected `finally { .. }`, a step, a `start` or `}`",
        Some(Nonterminal::Scope) => "expected `after N`, `at N`, `shield`, `fail` or `{`",
        Some(Nonterminal::Shield) => "expected `shield`, `fail` or `{`",
        Some(Nonterminal::Fail) => "expected `fail` or `{`",
        Some(Nonterminal::Nursery) => "expected `after N`, `shield` or `{` (in format 1 only `{`)",
        Some(Nonterminal::NurseryShield) => "expected `shield` or `{`",
        Some(Nonterminal::Over) => "expected `over N` or `{`",
        Some(Nonterminal::Passes | Nonterminal::ItemsPasses) => "expected a number or `over N`",
        Some(Nonterminal::Given) => "expected a name",
        Some(Nonterminal::Raised | Nonterminal::Handled) => "expected the name of an exception",
        Some(Nonterminal::Target) => {
            "expected the name of an enclosing scope or nursery, after `set` and `wait` of an event, after `acquire` of a limiter, after `send`, `receive` and `close` of a channel"
        }
        Some(Nonterminal::Number) => "expected a number",
        Some(Nonterminal::Text) => "expected a string, as `\"error\"`",
        Some(Nonterminal::Open) => "expected `{`",
        Some(Nonterminal::Semicolon) => "expected `;`",
    }
}
