ghost use Rattle.std.specs.Prelude.{◌≡◌, None, IfOk};
ghost use Rattle.job_reader.specs.declared.target.TargetKind.TheVariants as target;
ghost use Rattle.refusal_text.specs.Expecting.{IsAsked, IsExpected};
ghost use Rattle.refusal_text.specs.Hinting.{IsHint, IsSyntaxHint, IsStrayHint};
ghost use Rattle.refusal_text.specs.Scopes.{IsListed, IsEnclosing, IsOfKind, IsStray, names_held};

use crate::expecting::expected_nonterminal;
use crate::hinting::{
    Hint, advice_hint, ascii_advice, number_hint, reserved_hint, stray_hint, syntax_hint,
    token_hint, twice_hint,
};
use crate::lexed_text::LexedText;
use crate::scanning::last_before;
use crate::scopes::{enclosing_names, kind_used};
use crate::size::size_hint;
use job_hints::version_advice;
use job_reader::{JobFault, JobKind, TargetKind};
use job_syntax::Nonterminal;
use job_tree::Name;
use std::alloc::{AllocError, Global};

/// What is found out about a refusal, for its message.
#[derive(Drop)]
pub(crate) struct Findings {
    /// For a syntax fault, what the grammar expects at the place, or `None` if it expects the end of the text. `None` for any
    /// other refusal.
    pub asked: Option<Nonterminal>,
    /// The hint, if there is one.
    pub hint: Option<Hint>,
    /// For a name that nothing of its kind around the step has, what the step uses; for any other refusal `Scope`.
    pub used: TargetKind,
    /// For such a name, the names of what the step could use, the innermost first: of the scopes and nurseries around a `cancel`,
    /// and of the events, limiters or channels around other steps. `None` if there is no such step, and for any other refusal.
    pub names: Option<Vec<Name>>,
}

impl Findings {
    // Returns the findings that are only this hint, if there is one.
    fn with_hint(hint: Option<Hint>) -> Findings
        ensures asked { result.asked ≡ None }
        ensures hint { result.hint ≡ hint }
        ensures used { result.used ≡ target.Scope }
        ensures names { names_held result.names ≡ None }
    {
        Findings {
            asked: None,
            hint,
            used: TargetKind::Scope,
            names: None,
        }
    }
}

// Returns what is found out about a refusal. The text is lexed at most once, and only for a kind that its tokens explain.
pub(crate) fn findings_of(
    alloc: Global,
    text: &[u8],
    fault: JobFault,
) -> Result<Findings, AllocError>
    ensures asked { IfOk result (λ found. IsAsked fault.kind text.now found.asked) }
    ensures hint { IfOk result (λ found. IsHint fault.kind text.now fault.at found.hint) }
    ensures used { IfOk result (λ found. IsStray fault.kind text.now fault.at found.used) }
    ensures names { IfOk result (λ found. IsListed fault.kind text.now (names_held found.names)) }
{
    let at = fault.at;
    match fault.kind {
        JobKind::NotAscii => Ok(Findings::with_hint(advice_hint(ascii_advice(text)))),
        JobKind::Version => Ok(Findings::with_hint(advice_hint(version_advice(text)))),
        JobKind::Token => Ok(Findings::with_hint(token_hint(alloc, text, at)?)),
        JobKind::Number => Ok(Findings::with_hint(number_hint(alloc, text, at)?)),
        JobKind::Syntax => syntax_findings(alloc, text, at),
        JobKind::Twice => Ok(Findings::with_hint(twice_hint(alloc, text, at)?)),
        JobKind::NotEnclosing => stray_findings(alloc, text, at),
        JobKind::Reserved => Ok(Findings::with_hint(reserved_hint(alloc, text, at)?)),
        JobKind::TooLarge => Ok(Findings::with_hint(size_hint(alloc, text)?)),
        JobKind::TooLong | JobKind::Depth | JobKind::NoMemory => Ok(Findings::with_hint(None)),
    }
}

// Returns what the grammar expects at a syntax fault, and the hint.
fn syntax_findings(alloc: Global, text: &[u8], at: usize) -> Result<Findings, AllocError>
    ensures asked { IfOk result (λ found. IsExpected text.now found.asked) }
    ensures hint { IfOk result (λ found. IsSyntaxHint text.now at found.hint) }
    ensures used { IfOk result (λ found. found.used ≡ target.Scope) }
    ensures names { IfOk result (λ found. names_held found.names ≡ None) }
{
    let lexed = LexedText::new(alloc, text)?;
    let asked = expected_nonterminal(alloc, lexed.format, lexed.tokens.as_slice())?;
    let hint = syntax_hint(alloc, &lexed, asked, at)?;
    Ok(Findings {
        asked,
        hint,
        used: TargetKind::Scope,
        names: None,
    })
}

// Returns what could be named at a place whose name nothing of its kind around it has, and that the name in a `cancel` is that of
// a task.
fn stray_findings(alloc: Global, text: &[u8], at: usize) -> Result<Findings, AllocError>
    ensures asked { IfOk result (λ found. found.asked ≡ None) }
    ensures hint { IfOk result (λ found. IsStrayHint text.now at found.hint) }
    ensures used { IfOk result (λ found. IsOfKind text.now at found.used) }
    ensures names { IfOk result (λ found. IsEnclosing text.now (names_held found.names)) }
{
    let lexed = LexedText::new(alloc, text)?;
    let tokens = lexed.tokens.as_slice();
    let hint = stray_hint(tokens, at);
    let names = enclosing_names(alloc, tokens)?;
    Ok(Findings {
        asked: None,
        hint,
        used: kind_used(last_before(tokens, at)),
        names,
    })
}
