ghost use Rattle.std.specs.Prelude.{◌≡◌, ◌++◌, ◌∷◌, [], length, true, drop, if◌then◌else◌, IfOk, OnOk, IfErr};
ghost use Rattle.job_tokens.specs.Lexing.{has_comments};
ghost use Rattle.job_tokens.specs.Comments.{comments_along};
ghost use Rattle.job_reader.specs.Refusals.{Spells, first_line};
ghost use Rattle.job_layout.specs.Commented.{first_of, others_of, lines_of, commented_text};
ghost use Rattle.job_layout.specs.Layout.{formatted_text};
ghost use Rattle.job_layout.specs.Faults.{IsFormatted, IsTextFault};

use crate::blocks::tokens_of;
use crate::comments::{bare_of, push_lines};
use crate::fault::FormatFault;
use crate::spaced::{SpacedToken, level_after, push_token, push_tokens};
use job_reader::{FIRST_LINE_LENGTH, Format, Job, MAX_BYTES, first_line, read_job, spelled_tokens};
use job_tokens::{has_comments, skip_token, split_separator};
use std::alloc::{AllocError, Global};

/// Formats a job text: returns the text of the job that the text spells, with two spaces for each level and one step on each
/// line. A block that is empty, or that holds a single step without a block of its own, is on one line if there is no comment
/// in it and that line ends at column 80 or before. The formatted text spells the same job in the same format, with the same
/// comments before each token.
///
/// The error is `Refused` exactly if the text is refused, and `TooLong` exactly if the formatted text has more than 65,536
/// bytes. In either case it may instead be `NoMemory`, if memory runs out.
#[tactic(auto, using(crate::proofs::Formatted::is_formatted, crate::proofs::Formatted::is_too_long))]
pub fn format_text(alloc: Global, text: &[u8]) -> Result<Vec<u8>, FormatFault>
    ensures formatted { IfOk result (λ bytes. IsFormatted text.now bytes.items) }
    ensures fault { IfErr result (IsTextFault text.now) }
{
    let job = read_job(alloc, text)?;
    let formatted = formatted_text(alloc, text, &job)?;
    if formatted.len() > MAX_BYTES {
        return Err(FormatFault::TooLong(formatted.len()));
    }
    Ok(formatted)
}

// Returns the formatted text of a job. The caller must ensure that the text spells the job.
fn formatted_text(alloc: Global, text: &[u8], job: &Job) -> Result<Vec<u8>, AllocError>
    requires { Spells text.now job.now }
    ensures { IfOk result (λ bytes. bytes.items ≡ formatted_text text.now job.now) }
{
    let spelled = spelled_tokens(alloc, text, job)?;
    let body = commented_body(job.text_format(), text);
    let bare = bare_of(alloc, spelled.len(), body)?;
    let tokens = tokens_of(alloc, bare.as_slice(), job)?;
    let bytes = text_of(alloc, job.text_format(), tokens.as_slice(), body)?;
    Ok(bytes)
}

// Returns the bytes after the first line of a text, if texts of the format have comments, and otherwise no bytes.
fn commented_body(format: Format, text: &[u8]) -> &[u8]
    ensures { result.now ≡ (if has_comments format then drop 11 text.now else []) }
{
    let mut skipped = text.len();
    if has_comments(format) {
        skipped = FIRST_LINE_LENGTH.min(text.len());
    }
    text.split_at(skipped).1
}

// Returns the first line of a format, followed by the tokens with the comments of `body` before them, and a newline.
fn text_of(
    alloc: Global,
    format: Format,
    tokens: &[SpacedToken],
    body: &[u8],
) -> Result<Vec<u8>, AllocError>
    ensures { IfOk result (λ text. text.items ≡ first_line format
        ++ (lines_of (first_of (comments_along true (length tokens.now) body.now))
        ++ (commented_text 0 tokens.now ([] ∷ others_of (comments_along true (length tokens.now) body.now)) ++ 10 ∷ []))) }
{
    let mut text = Vec::from_slice(alloc, first_line(format))?;
    let (separator, _) = split_separator(body);
    push_lines(&mut text, separator)?;
    push_after_lines(&mut text, tokens, body)?;
    text.push(b'\n')?;
    Ok(text)
}

// Appends the tokens, with the comments of `body` after the first of them.
fn push_after_lines(
    out: &mut Vec<u8>,
    tokens: &[SpacedToken],
    body: &[u8],
) -> Result<(), AllocError>
    ensures { OnOk result (out.new.items ≡ out.old.items
        ++ commented_text 0 tokens.now ([] ∷ others_of (comments_along true (length tokens.now) body.now))) }
{
    let Some((first, others)) = tokens.split_first() else {
        return Ok(());
    };
    let (_, after) = split_separator(body);
    push_token(out, *first)?;
    push_tokens(out, level_after(0, first.gap), others, skip_token(after))?;
    Ok(())
}
