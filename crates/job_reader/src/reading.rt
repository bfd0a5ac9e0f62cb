ghost use Rattle.std.specs.Prelude.{◌≡◌, ℕ, drop, Ok, Err, IfOk, IfErr, OnOk, MatchResult, MatchOption, take};
ghost use Rattle.std.specs.List.{prefix_len};
ghost use Rattle.job_tree.specs.Tree.{Tree};
ghost use Rattle.job_reader.specs.declared.fault.JobKind.{JobKind};
ghost use Rattle.job_reader.specs.Refusals.{first_line, format_of, IsHeadless, is_text_byte, IsReadTo, Passes, IsRefused, IsFair, IsOfSomeJob, Spells, AnswersUnlessMemory};

use crate::draft::Draft;
use crate::fault::{JobFault, JobKind, refuse_at};
use crate::job::Job;
use job_syntax::{GrammarCheck, Role, check_grammar, depth_fault, number_fault};
use job_tokens::{Lexed, Token, has_comments, is_blank, is_plain, lex};
use job_tree::Format;
use std::alloc::Global;

/// The maximum number of bytes of a job text.
pub const MAX_BYTES: usize = 65_536;

/// The number of bytes of the first line of a job text, with its newline.
pub const FIRST_LINE_LENGTH: usize = 11;

/// Returns the first line of a job text of this format, with its newline.
pub fn first_line(format: Format) -> &'static [u8]
    ensures { result.now ≡ first_line format }
{
    match format {
        Format::One => b"trio-job 1\n",
        Format::Two => b"trio-job 2\n",
        Format::Three => b"trio-job 3\n",
    }
}

/// Returns the job that a text spells. The error is the refusal of the first check that finds a fault, at the
/// earliest place, or that memory runs out. `JobKind` lists the kinds in the order of the checks.
pub fn read_job(alloc: Global, text: &[u8]) -> Result<Job, JobFault>
    // The text spells the job that is returned.
    ensures found { IfOk result (λ job. Spells text.now job) }
    // A refusal is the fault at that place, and there is no fault of an earlier kind.
    ensures refused { IfErr result (IsFair text.now) }
    // If the text spells a job, that job is returned, unless memory runs out.
    ensures only { (job : Tree) → Spells text.now job → AnswersUnlessMemory result (Ok job) }
    // If the condition of a refusal holds, that refusal is returned, unless memory runs out.
    ensures exact { (kind : JobKind) (at : ℕ) → IsRefused text.now kind at
        → AnswersUnlessMemory result (Err (record { at = at; kind = kind })) }
{
    read(alloc, text)
}

// Runs the checks one after the other. No tree is built before the depth of the blocks is known.
fn read(alloc: Global, text: &[u8]) -> Result<Job, JobFault>
    ensures { MatchResult result (Spells text.now) (IsFair text.now) }
{
    let (format, body) = check_bytes(text)?;
    let tokens = tokens_of(alloc, text, format, body)?;
    check_numbers(text, format, &tokens)?;
    let roles = roles_of(alloc, text, format, &tokens)?;
    check_depth(text, &tokens)?;
    let draft = Draft::new(alloc, text, format, tokens, roles)?;
    draft.check_given(alloc)?;
    draft.check_uses()?;
    draft.check_reserved()?;
    draft.check_size()?;
    Ok(draft.into_job())
}

// Returns the format of the text, and the bytes after its first line.
fn check_bytes(text: &[u8]) -> Result<(Format, &[u8]), JobFault>
    ensures ok { IfOk result (λ found. (found.0 ≡ format_of text.now) × (found.1.now ≡ drop 11 text.now) × Passes text.now 3) }
    ensures err { IfErr result (IsFair text.now) }
{
    if text.len() > MAX_BYTES {
        return Err(JobFault {
            at: MAX_BYTES,
            kind: JobKind::TooLong,
        });
    }
    let plain = count_text_bytes(format_of(text), text);
    if plain < text.len() {
        return Err(JobFault {
            at: plain,
            kind: JobKind::NotAscii,
        });
    }
    let Some(found) = after_first_line(text) else {
        return Err(JobFault {
            at: 0,
            kind: JobKind::Version,
        });
    };
    Ok(found)
}

/// Returns the format of the first line of a text, or format 1 if the text begins with no first line.
pub fn format_of(text: &[u8]) -> Format
    ensures { result ≡ format_of text.now }
{
    match after_first_line(text) {
        Some((format, _)) => format,
        None => Format::One,
    }
}

// Returns the format of the first line, and the bytes after it, if the text begins with a first line.
fn after_first_line(text: &[u8]) -> Option<(Format, &[u8])>
    ensures { MatchOption result (IsHeadless text.now)
        (λ found. (take 11 text.now ≡ first_line found.0) × (found.1.now ≡ drop 11 text.now)) }
{
    if let Some(body) = text.strip_prefix(first_line(Format::One)) {
        return Some((Format::One, body));
    }
    if let Some(body) = text.strip_prefix(first_line(Format::Two)) {
        return Some((Format::Two, body));
    }
    if let Some(body) = text.strip_prefix(first_line(Format::Three)) {
        return Some((Format::Three, body));
    }
    None
}

// Returns the number of bytes before the first that no text of the format has.
fn count_text_bytes(format: Format, text: &[u8]) -> usize
    ensures { result ≡ prefix_len (is_text_byte format) text.now }
{
    for (n, b) in text.iter().enumerate() {
        if !is_text_byte(format, *b) {
            return n;
        }
    }
    text.len()
}

// Returns whether a text of the format may have the byte.
fn is_text_byte(format: Format, b: u8) -> bool
    ensures { result ≡ is_text_byte format b }
{
    if has_comments(format) {
        return is_plain(b) || is_blank(b);
    }
    b < 128
}

// Returns the tokens of the text. `body` is the text without its first line.
#[tactic(auto, unfolding(crate::specs::Refusals::may_have_comments))]
fn tokens_of(
    alloc: Global,
    text: &[u8],
    format: Format,
    body: &[u8],
) -> Result<Vec<Token>, JobFault>
    requires format { format ≡ format_of text.now }
    requires after { body.now ≡ drop 11 text.now }
    requires earlier { Passes text.now 3 }
    ensures ok { IfOk result (λ tokens. IsReadTo 4 text.now tokens.items) }
    ensures err { IfErr result (IsFair text.now) }
{
    let Lexed { tokens, fault } = lex(alloc, format, body, text.len())?;
    refuse_at(fault, JobKind::Token)?;
    Ok(tokens)
}

fn check_numbers(text: &[u8], format: Format, tokens: &[Token]) -> Result<(), JobFault>
    requires format { format ≡ format_of text.now }
    requires read { IsReadTo 4 text.now tokens.now }
    ensures ok { OnOk result (IsReadTo 5 text.now tokens.now) }
    ensures err { IfErr result (IsFair text.now) }
{
    refuse_at(number_fault(format, tokens), JobKind::Number)
}

// Returns the role of each token, if the tokens are those of a job.
fn roles_of(
    alloc: Global,
    text: &[u8],
    format: Format,
    tokens: &[Token],
) -> Result<Vec<Role>, JobFault>
    requires format { format ≡ format_of text.now }
    requires read { IsReadTo 5 text.now tokens.now }
    ensures ok { IfOk result (λ roles. IsReadTo 6 text.now tokens.now × IsOfSomeJob (format_of text.now) tokens.now roles.items) }
    ensures err { IfErr result (IsFair text.now) }
{
    let GrammarCheck { fault, roles } = check_grammar(alloc, format, tokens, text.len())?;
    refuse_at(fault, JobKind::Syntax)?;
    Ok(roles)
}

fn check_depth(text: &[u8], tokens: &[Token]) -> Result<(), JobFault>
    requires { IsReadTo 6 text.now tokens.now }
    ensures ok { OnOk result (IsReadTo 7 text.now tokens.now) }
    ensures err { IfErr result (IsFair text.now) }
{
    refuse_at(depth_fault(tokens), JobKind::Depth)
}
